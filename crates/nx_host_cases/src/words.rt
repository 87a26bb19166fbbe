//! What words of the command line name: their URIs, and the files that the disk has for them from its root.

use crate::memory;
use nx_base::sequence::Bytes;
use nx_host::disk::DiskFiles;
use nx_host::path_uri::path_uri;
use nx_host::process::process_folder;
use nx_host::uri::{WORK_FOLDER, join};
use std::alloc::Global;
use std::{fs, io};

// A folder, a word and its URI, which joins to itself.
const PATHS: &str = "\
/texts/u|guide.xml|file:///texts/u/guide.xml
/texts/u|a b#1?.xml|file:///texts/u/a%20b%231%3F.xml
/texts/u|100%.xml|file:///texts/u/100%25.xml
/texts/u|%2e%2e/x|file:///texts/u/%252e%252e/x
/home/ü|é.xml|file:///home/%C3%BC/%C3%A9.xml
/texts/u|a\tb\\c|file:///texts/u/a%09b%5Cc
/texts/u|a+b~c_d-e&f=g;h,i!j|file:///texts/u/a%2Bb~c_d-e%26f%3Dg%3Bh%2Ci%21j
/texts/u|'k(l)m*n@o:p$q|file:///texts/u/%27k%28l%29m%2An%40o%3Ap%24q
/texts/u|/work/x.xml|file:///work/x.xml
/texts/u|//a///b|file:///a/b
/texts/u|./d/./x.xml|file:///texts/u/d/x.xml
/texts/u|../x.xml|file:///texts/x.xml
/texts/u|d//../x.xml|file:///texts/u/x.xml
/texts/u|../../../x.xml|file:///x.xml
/texts/u|/../x|file:///x
/texts/u|d/..|file:///texts/u
/texts/u|d/|file:///texts/u/d
/texts/u||file:///texts/u
/texts/u|...|file:///texts/u/...
/texts/u|.x.|file:///texts/u/.x.
/|x.xml|file:///x.xml
/|.|file:///
/|C:/x|file:///C%3A/x
/texts/u|http://e/x|file:///texts/u/http%3A/e/x
/texts/u|file.xml|file:///texts/u/file.xml
/texts/u|files:x|file:///texts/u/files%3Ax
/texts/u|./file:x|file:///texts/u/file%3Ax
/texts/u|file:///a%20b.xml|file:///a%20b.xml";

// The first part of a row, and the others.
fn cut(row: &str) -> (&str, &str) {
    row.split_once("|").unwrap_or((row, "no row"))
}

// Whether a word of this folder comes to that URI.
fn comes_to(alloc: Global, folder: &str, word: &str, wanted: &str) -> bool {
    match path_uri(alloc, folder.as_bytes(), word.as_bytes()) {
        Ok(uri) => uri.as_slice() == wanted.as_bytes(),
        Err(_) => false,
    }
}

// Whether a URI joins to itself.
fn joins_to_itself(alloc: Global, uri: &str) -> bool {
    match join(alloc, WORK_FOLDER, uri) {
        Ok(joined) => joined.as_slice() == uri.as_bytes(),
        Err(_) => false,
    }
}

fn is_named(alloc: Global, row: &str) -> bool {
    let (folder, rest) = cut(row);
    let (word, uri) = cut(rest);
    comes_to(alloc, folder, word, uri) && joins_to_itself(alloc, uri)
}

#[test]
fn words_name_uris(rt: HostRuntime) {
    for row in PATHS.split("\n") {
        assert!(rt; is_named(rt.alloc(), row), "{row}");
    }
    assert!(rt; comes_to(rt.alloc(), "/texts/u", "file:x y.xml", "file:x y.xml"));
}

const FOLDER: &str = "nx_host_rooted_test";

const STORED: &str = "nx_host_rooted_test/a b#.txt";

fn is_done(answer: io::Result<()>) -> bool {
    answer.is_ok()
}

// The URI of a word in the folder of the process, or nothing.
fn uri_here(rt: &HostRuntime, word: &str) -> Bytes {
    let nothing = Bytes::new(rt.alloc());
    let Ok(Some(folder)) = process_folder(rt) else {
        return nothing;
    };
    match path_uri(rt.alloc(), folder.as_slice(), word.as_bytes()) {
        Ok(uri) => uri,
        Err(_) => nothing,
    }
}

fn finds(files: &mut DiskFiles<'_, HostRuntime>, alloc: Global, uri: &Bytes, wanted: &str) -> bool {
    match str::from_utf8(uri.as_slice()) {
        Ok(uri) => memory::finds(files, alloc, uri, wanted),
        Err(_) => false,
    }
}

fn stores(files: &mut DiskFiles<'_, HostRuntime>, alloc: Global, uri: &Bytes) -> bool {
    match str::from_utf8(uri.as_slice()) {
        Ok(uri) => memory::stores(files, alloc, uri, "stored"),
        Err(_) => false,
    }
}

// Whether what was stored under a word's URI lies at its path, and nothing in the folder of the work.
fn is_rooted(rt: &HostRuntime, files: &mut DiskFiles<'_, HostRuntime>) -> bool {
    let uri = uri_here(rt, STORED);
    is_done(fs::create_dir(rt, FOLDER))
        && stores(files, rt.alloc(), &uri)
        && finds(files, rt.alloc(), &uri, "text")
        && fs::metadata(rt, STORED).is_ok()
        && memory::finds(
            files,
            rt.alloc(),
            "file:///work/nx_host_rooted_test/a%20b%23.txt",
            "none",
        )
        && files.failures() == 0
        && is_done(fs::remove_dir_all(rt, FOLDER))
}

#[test]
fn disk_from_its_root(rt: HostRuntime) {
    let _left_over = fs::remove_dir_all(&rt, FOLDER);
    let mut files = DiskFiles::rooted(&rt);
    assert!(rt; is_rooted(&rt, &mut files));
}
