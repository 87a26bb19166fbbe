//! Laws of composing and of simple forms. Nothing here runs.

ghost use Rattle.rng_simplify.specs.Unambiguous.{SimpleFormIsOne, SchemaFormIsOne, GrammarIsOne, PieceIsOne};
ghost use Rattle.rng_simplify.specs.Unambiguous.{ComposedArePassed, SimplifiedIsNotBroken, GrammarIsNoRefusal};
ghost use Rattle.rng_simplify.specs.Exact.{PieceIsSimplifiedOrBroken, NumbersAreFree, SimplifiedOrBroken};
ghost use Rattle.rng_simplify.specs.Composition.{NoPieceIsMissing, MadeIsWellFormed, MadeIsText, WellFormedDenotes};
ghost use Rattle.rng_simplify.specs.Composition.{MadeIsComposed, RefusedIsBroken};
ghost use Rattle.rng_simplify.specs.SuppliedPieces.{PatternsAreComposed};

use nx_host::uri::{joins_is_decided, texts_join_or_are_bad};
use rngx_read::law::texts_are_read_or_refused;

/// What is made of a pattern, with pieces for the files that it mentions, is that pattern in one piece.
pub fn patterns_are_composed()
    ensures { PatternsAreComposed }
{}

/// Composing finds a piece for each file that is mentioned, where all files were loaded.
pub fn no_piece_is_missing()
    ensures { NoPieceIsMissing }
{}

/// No node that is made of files stands in two.
pub fn made_is_well_formed()
    ensures { MadeIsWellFormed }
{}

/// What is written in nodes that are made of files is UTF-8.
pub fn made_is_text()
    ensures { MadeIsText }
{}

/// Nodes of which none stands in two, and each behind those that stand in it, stand for something.
pub fn well_formed_denotes()
    ensures { WellFormedDenotes }
{}

/// What is made of files is the schema in one piece.
pub fn made_is_composed()
    ensures { MadeIsComposed }
{}

/// Files of which nothing is made make no grammar, for the cause that is told.
pub fn refused_is_broken()
    ensures { RefusedIsBroken }
{}

/// A pattern has one simple form.
pub fn simple_form_is_one()
    ensures { SimpleFormIsOne }
{}

/// A schema in one piece has one simple form.
pub fn schema_form_is_one()
    ensures { SchemaFormIsOne }
{}

/// A schema in one piece has one grammar.
pub fn grammar_is_one()
    ensures { GrammarIsOne }
{}

/// Files make one piece, but for the numbers of its elements.
pub fn piece_is_one()
    ensures { PieceIsOne }
{
    joins_is_decided();
}

/// Files that make one piece are there, say something, and refer to files as they may.
pub fn composed_are_passed()
    ensures { ComposedArePassed }
{
    joins_is_decided();
}

/// Files that have a grammar are not broken.
pub fn simplified_is_not_broken()
    ensures { SimplifiedIsNotBroken }
{
    joins_is_decided();
}

/// Files that have a grammar are refused by another call for want of memory alone, or where a file could not be had.
pub fn grammar_is_no_refusal()
    ensures { GrammarIsNoRefusal }
{
    joins_is_decided();
}

/// A schema in one piece has a grammar, or it is broken for some cause.
pub fn piece_is_simplified_or_broken()
    ensures { PieceIsSimplifiedOrBroken }
{}

/// A piece that files make is one that they make whatever numbers its elements have.
pub fn numbers_are_free()
    ensures { NumbersAreFree }
{}

/// Where the files that are reached are finitely many, are there and are text, and hold no bad URI, they define a grammar, or
/// they are broken for some cause.
pub fn simplified_or_broken()
    ensures { SimplifiedOrBroken }
{
    texts_join_or_are_bad();
    texts_are_read_or_refused();
}
