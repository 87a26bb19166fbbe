//! Rules files, documents, and what the rules yield for them, worked out by hand.

/// Between two cases stands an empty line. A case is what it shows, and behind that files and documents, each in a line of its own: its
/// URI, below the folder of the work where it has no scheme, a blank, and what it holds. A file holds these rules, or what follows `!`. A
/// document is followed by what is located for it with the files in front of it, the first of which is `d/s.xml`.
pub(crate) const CASES: &str = "\
the document element's type
  d/s.xml <transformURI fromPattern='*.xml' toPattern='*.rnc'/><uri pattern='*.xsl' typeId='XSLT'/>\
    <namespace ns='http://www.w3.org/1999/xhtml' uri='xhtml.rnc'/><documentElement localName='book' typeId='DocBook'/>\
    <typeId id='DocBook' uri='docbook.rnc'/>
  d/docbook.rnc !element book { empty }
  d/book.xml <!DOCTYPE book SYSTEM \"book.dtd\" [ <!-- it's > --> ]><book/> => schema d/docbook.rnc

the file that is made is there
  d/s.xml <transformURI fromPattern='*.xml' toPattern='*.rnc'/><uri pattern='*.xsl' typeId='XSLT'/>\
    <namespace ns='http://www.w3.org/1999/xhtml' uri='xhtml.rnc'/><documentElement localName='book' typeId='DocBook'/>\
    <typeId id='DocBook' uri='docbook.rnc'/>
  d/docbook.rnc !element book { empty }
  d/book.rnc !element book { empty }
  d/book.xml <!DOCTYPE book SYSTEM \"book.dtd\" [ <!-- it's > --> ]><book/> => schema d/book.rnc

a file includes itself
  d/s.xml <include rules='s.xml'/>
  d/book.xml <book/> => loop d/s.xml

two files include one another
  d/s.xml <include rules='a.xml'/>
  d/a.xml <include rules='s.xml'/>
  d/book.xml <book/> => loop d/s.xml

a loop behind the first file
  d/s.xml <include rules='a.xml'/>
  d/a.xml <include rules='b.xml'/>
  d/b.xml <include rules='a.xml'/>
  d/book.xml <book/> => loop d/a.xml

a loop is found before later rules
  d/s.xml <default uri='x.rnc'/><include rules='s.xml'/>
  d/book.xml <book/> => loop d/s.xml

one file included twice
  d/s.xml <include rules='a.xml'/><include rules='a.xml'/>
  d/a.xml <default uri='x.rnc'/>
  d/book.xml <book/> => schema d/x.rnc

no rules file
  d/book.xml <book/> => absent d/s.xml

no included file
  d/s.xml <include rules='a.xml'/>
  d/book.xml <book/> => absent d/a.xml

an included file is wanted before a rule applies
  d/s.xml <default uri='x.rnc'/><include rules='a.xml'/>
  d/book.xml <book/> => absent d/a.xml

the earlier include is told
  d/s.xml <include rules='a.xml'/><include rules='b.xml'/>
  d/book.xml <book/> => absent d/a.xml

depth first
  d/s.xml <include rules='a.xml'/><include rules='b.xml'/>
  d/a.xml <include rules='c.xml'/>
  d/book.xml <book/> => absent d/c.xml

an include stands for its rules in its place
  d/s.xml <include rules='a.xml'/><default uri='x.rnc'/>
  d/a.xml <default uri='y.rnc'/>
  d/book.xml <book/> => schema d/y.rnc

a rule before an include comes first
  d/s.xml <default uri='x.rnc'/><include rules='a.xml'/>
  d/a.xml <default uri='y.rnc'/>
  d/book.xml <book/> => schema d/x.rnc

references join their own file
  d/s.xml <include rules='e/a.xml'/>
  d/e/a.xml <default uri='y.rnc'/>
  d/book.xml <book/> => schema d/e/y.rnc

nested includes
  d/s.xml <include rules='e/a.xml'/>
  d/e/a.xml <include rules='../f/b.xml'/>
  d/f/b.xml <default uri='../z.rnc'/>
  d/book.xml <book/> => schema d/z.rnc

an include without rules is passed over
  d/s.xml <include/><default uri='x.rnc'/>
  d/book.xml <book/> => schema d/x.rnc

an include of no URI
  d/s.xml <include rules='http://['/>
  d/book.xml <book/> => bad uri http://[

an empty include is the file itself
  d/s.xml <include rules=''/>
  d/book.xml <book/> => loop d/s.xml

a file that isn't well-formed
  d/s.xml !<locatingRules>
  d/book.xml <book/> => bad rules d/s.xml

a root in no namespace
  d/s.xml !<locatingRules/>
  d/book.xml <book/> => bad rules d/s.xml

another root
  d/s.xml !<rules xmlns='http://thaiopensource.com/ns/locating-rules/1.0'/>
  d/book.xml <book/> => bad rules d/s.xml

a prefixed root
  d/s.xml !<?xml version='1.0'?><r:locatingRules xmlns:r='http://thaiopensource.com/ns/locating-rules/1.0'>\
    <r:default uri='x.rnc'/></r:locatingRules>
  d/book.xml <book/> => schema d/x.rnc

an included file without rules
  d/s.xml <include rules='a.xml'/>
  d/a.xml !<a/>
  d/book.xml <book/> => bad rules d/a.xml

a fault deep in a file
  d/s.xml <a><b>&nbsp;</b></a><default uri='x.rnc'/>
  d/book.xml <book/> => bad rules d/s.xml

an empty file
  d/s.xml !
  d/book.xml <book/> => bad rules d/s.xml

no rules at all
  d/s.xml
  d/book.xml <book/> => none

text and other elements are passed over
  d/s.xml t<!-- c --><x:default xmlns:x='u' uri='a.rnc'/><unknown uri='b.rnc'/><?p?><default uri='x.rnc'/>
  d/book.xml <book/> => schema d/x.rnc

a rule inside of another element is none
  d/s.xml <x><default uri='a.rnc'/></x><default uri='x.rnc'/>
  d/book.xml <book/> => schema d/x.rnc

a rule inside of a rule is none
  d/s.xml <default><default uri='a.rnc'/></default>
  d/book.xml <book/> => none

attributes in a namespace are none
  d/s.xml <default xmlns:x='u' x:uri='a.rnc'/>
  d/book.xml <book/> => none

rules that aren't known
  d/s.xml <doctypePublicId publicId='p' uri='a.rnc'/><applyFollowingRules ruleType='default'/>
  d/book.xml <book/> => none

the URI of the document
  d/s.xml <uri resource='book.xml' uri='x.rnc'/>
  d/book.xml <book/> => schema d/x.rnc

another URI
  d/s.xml <uri resource='look.xml' uri='x.rnc'/>
  d/book.xml <book/> => none

a URI from elsewhere
  d/s.xml <uri resource='http://e.org/a' uri='x.rnc'/>
  http://e.org/a <book/> => schema d/x.rnc

either of resource and pattern
  d/s.xml <uri resource='look.xml' pattern='*.xml' uri='x.rnc'/>
  d/book.xml <book/> => schema d/x.rnc

a resource that is no URI is told when it is tried
  d/s.xml <uri resource='http://[' pattern='*.xml' uri='x.rnc'/>
  d/book.xml <book/> => bad uri http://[

a resource behind the first rule isn't tried
  d/s.xml <default uri='x.rnc'/><uri resource='http://[' uri='y.rnc'/>
  d/book.xml <book/> => schema d/x.rnc

a resource of a rule that leads nowhere isn't tried
  d/s.xml <uri resource='http://['/><default uri='x.rnc'/>
  d/book.xml <book/> => schema d/x.rnc

a pattern of the name
  d/s.xml <uri pattern='b*k.xml' uri='x.rnc'/>
  d/book.xml <book/> => schema d/x.rnc

a pattern of the whole name alone
  d/s.xml <uri pattern='book' uri='x.rnc'/>
  d/book.xml <book/> => none

a star passes no slash
  d/s.xml <uri pattern='../d/*.xml' uri='x.rnc'/><uri pattern='*/book.xml' uri='y.rnc'/>
  d/book.xml <book/> => none

a pattern with a folder
  d/s.xml <uri pattern='e/*.xml' uri='x.rnc'/>
  d/e/book.xml <book/> => schema d/x.rnc

a folder by a star
  d/s.xml <uri pattern='*/*.xml' uri='x.rnc'/>
  d/e/book.xml <book/> => schema d/x.rnc

a star for no more than one folder
  d/s.xml <uri pattern='*/*.xml' uri='x.rnc'/>
  d/e/f/book.xml <book/> => none

a pattern with a scheme
  d/s.xml <uri pattern='http://*/a/*' uri='x.rnc'/>
  http://e.org/a/b <book/> => schema d/x.rnc

a document in another folder
  d/s.xml <uri pattern='./*.xml' uri='x.rnc'/>
  c/book.xml <book/> => none

the first place isn't the only one
  d/s.xml <uri pattern='*oo*k*' uri='x.rnc'/>
  d/boook.xml <book/> => schema d/x.rnc

the end is matched at the end
  d/s.xml <uri pattern='*.xml' uri='x.rnc'/>
  d/a.xml.xml <book/> => schema d/x.rnc

a star of no byte
  d/s.xml <uri pattern='*book.xml*' uri='x.rnc'/>
  d/book.xml <book/> => schema d/x.rnc

an empty pattern
  d/s.xml <uri pattern='' uri='x.rnc'/>
  d/book.xml <book/> => none

an empty pattern of an empty name
  d/s.xml <uri pattern='' uri='x.rnc'/>
  d/ <book/> => schema d/x.rnc

a local name
  d/s.xml <documentElement localName='book' uri='x.rnc'/>
  d/book.xml <book/> => schema d/x.rnc

another local name
  d/s.xml <documentElement localName='look' uri='x.rnc'/>
  d/book.xml <book/> => none

a prefix
  d/s.xml <documentElement prefix='p' uri='x.rnc'/>
  d/book.xml <p:book xmlns:p='u'/> => schema d/x.rnc

an empty prefix
  d/s.xml <documentElement prefix='' uri='x.rnc'/>
  d/book.xml <p:book xmlns:p='u'/> => none

no prefix
  d/s.xml <documentElement prefix='' localName='book' uri='x.rnc'/>
  d/book.xml <book/> => schema d/x.rnc

both must be
  d/s.xml <documentElement prefix='p' localName='look' uri='x.rnc'/>
  d/book.xml <p:book xmlns:p='u'/> => none

neither
  d/s.xml <documentElement uri='x.rnc'/>
  d/book.xml <book/> => none

no document element
  d/s.xml <documentElement localName='book' uri='x.rnc'/><default uri='y.rnc'/>
  d/book.xml book => schema d/y.rnc

a lost element is passed over
  d/s.xml <documentElement localName='in' uri='x.rnc'/>
  d/book.xml <p:book><in></p:book> => schema d/x.rnc

a document that isn't well-formed
  d/s.xml <documentElement localName='book' uri='x.rnc'/>
  d/book.xml ]]>&x;<book a='1' a='2'><b></c> => schema d/x.rnc

a namespace
  d/s.xml <namespace ns='u' uri='x.rnc'/>
  d/book.xml <book xmlns='u'/> => schema d/x.rnc

a namespace by its prefix
  d/s.xml <namespace ns='u' uri='x.rnc'/>
  d/book.xml <p:book xmlns:p='u' xmlns='v'/> => schema d/x.rnc

no namespace
  d/s.xml <namespace ns='' uri='x.rnc'/>
  d/book.xml <book/> => schema d/x.rnc

another namespace
  d/s.xml <namespace ns='u' uri='x.rnc'/>
  d/book.xml <book/> => none

a namespace without ns
  d/s.xml <namespace uri='x.rnc'/>
  d/book.xml <book/> => none

always
  d/s.xml <default uri='http://e.org:80/x.rnc'/>
  d/book.xml => schema http://e.org/x.rnc

the first rule wins
  d/s.xml <default uri='x.rnc'/><default uri='y.rnc'/>
  d/book.xml <book/> => schema d/x.rnc

a reference that is no URI is told when it yields
  d/s.xml <default uri='http://['/>
  d/book.xml <book/> => bad uri http://[

a reference behind the first rule isn't judged
  d/s.xml <default uri='x.rnc'/><default uri='http://['/>
  d/book.xml <book/> => schema d/x.rnc

a uri before a type
  d/s.xml <default uri='x.rnc' typeId='T'/><typeId id='T' uri='y.rnc'/>
  d/book.xml <book/> => schema d/x.rnc

a type before its user
  d/s.xml <typeId id='T' uri='x.rnc'/><default typeId='T'/>
  d/book.xml <book/> => schema d/x.rnc

a type behind its user
  d/s.xml <default typeId='T'/><typeId id='T' uri='x.rnc'/>
  d/book.xml <book/> => schema d/x.rnc

the first rule of a type
  d/s.xml <default typeId='T'/><typeId id='T' uri='x.rnc'/><typeId id='T' uri='y.rnc'/>
  d/book.xml <book/> => schema d/x.rnc

a type without a target is passed over
  d/s.xml <default typeId='T'/><typeId id='T'/><typeId id='T' uri='y.rnc'/>
  d/book.xml <book/> => schema d/y.rnc

types lead to types
  d/s.xml <default typeId='A'/><typeId id='A' typeId='B'/><typeId id='B' typeId='C'/><typeId id='C' uri='x.rnc'/>
  d/book.xml <book/> => schema d/x.rnc

types that lead back yield nothing
  d/s.xml <default typeId='A'/><typeId id='A' typeId='B'/><typeId id='B' typeId='A'/><default uri='x.rnc'/>
  d/book.xml <book/> => schema d/x.rnc

a type that leads to itself
  d/s.xml <default typeId='A'/><typeId id='A' typeId='A'/>
  d/book.xml <book/> => none

an unknown type yields nothing
  d/s.xml <default typeId='A'/><default uri='x.rnc'/>
  d/book.xml <book/> => schema d/x.rnc

a type joins its own file
  d/s.xml <default typeId='A'/><include rules='e/a.xml'/>
  d/e/a.xml <typeId id='A' uri='y.rnc'/>
  d/book.xml <book/> => schema d/e/y.rnc

a type to no URI
  d/s.xml <default typeId='A'/><typeId id='A' uri='http://['/>
  d/book.xml <book/> => bad uri http://[

a name is made
  d/s.xml <transformURI fromPattern='*.xml' toPattern='*.rnc'/>
  d/book.rnc !
  d/book.xml <book/> => schema d/book.rnc

nothing is there
  d/s.xml <transformURI fromPattern='*.xml' toPattern='*.rnc'/><default uri='x.rnc'/>
  d/book.xml <book/> => schema d/x.rnc

another number of stars
  d/s.xml <transformURI fromPattern='*.xml' toPattern='book.rnc'/>
  d/book.rnc !
  d/book.xml <book/> => none

no star
  d/s.xml <transformURI fromPattern='book.xml' toPattern='book.rnc'/>
  d/book.rnc !
  d/book.xml <book/> => schema d/book.rnc

a pattern that doesn't fit
  d/s.xml <transformURI fromPattern='*.xsl' toPattern='*.rnc'/>
  d/book.rnc !
  d/book.xml <book/> => none

stars in order, each the shortest
  d/s.xml <transformURI fromPattern='*-*.xml' toPattern='*+*.rnc'/>
  d/a+b-c.rnc !
  d/a-b+c.rnc !
  d/a-b-c.xml <book/> => schema d/a+b-c.rnc

a folder is made
  d/s.xml <transformURI fromPattern='*.xml' toPattern='e/*.rnc'/>
  d/e/book.rnc !
  d/book.xml <book/> => schema d/e/book.rnc

a name is made in the document's folder
  d/s.xml <transformURI fromPattern='*.xml' toPattern='*.rnc'/>
  c/book.rnc !
  d/book.rnc !
  c/book.xml <book/> => schema c/book.rnc

a folder is made in the rules file's
  d/s.xml <transformURI fromPattern='*.xml' toPattern='./*.rnc'/>
  c/book.rnc !
  d/book.rnc !
  c/book.xml <book/> => schema d/book.rnc

a whole URI is made
  d/s.xml <transformURI fromPattern='http://*/*' toPattern='file:///work/*/*.rnc'/>
  e.org/a.rnc !
  http://e.org/a <book/> => schema e.org/a.rnc

no URI is made
  d/s.xml <transformURI fromPattern='*.xml' toPattern='http://[*/'/><default uri='x.rnc'/>
  d/book.xml <book/> => schema d/x.rnc

no toPattern
  d/s.xml <transformURI fromPattern='*.xml'/>
  d/book.rnc !
  d/book.xml <book/> => none

no fromPattern
  d/s.xml <transformURI toPattern='*.rnc'/>
  d/book.rnc !
  d/book.xml <book/> => none";
