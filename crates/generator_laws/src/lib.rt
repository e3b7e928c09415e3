//! A law about the sources that are made from numbers: each compiles under the built-in header.
//!
//! There is no code here that runs. The sources differ in two numbers alone, so their tokens, their
//! tree and its typed unit are the same but for these. `proofs/Pieces.antt` computes the tokens of
//! the text between the numbers, `proofs/Numbers.antt` says that a decimal number is one token,
//! and `proofs/Trees.antt` and `proofs/Typing.antt` compute the tree and the unit. What is made is
//! docs/GENERATED.md.
#![tactic(auto)]

ghost use Rattle.generator_laws.specs.Scripts.{SourcesCompile};

use ncs_code::size_laws;
use nss_lexer::laws::computed_tokens;
use nss_parser::laws::reading_gives_tree;
use typing_rules::laws::verdicts_are_right;

/// The source that is made from a number has a typed unit, whose file is small enough.
pub fn sources_compile()
    ensures compile { SourcesCompile }
{
    computed_tokens();
    reading_gives_tree();
    verdicts_are_right();
    size_laws();
}
