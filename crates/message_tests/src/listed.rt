//! The tokens that can stand at a place.

use message_tokens::{candidates, following};
use nss_lexer::Token;
use nwq_value::NoMemory;
use std::alloc::Global;
use test_units::tokens_of;

/// The texts of the tokens that can follow a text, each before a blank.
fn listed(alloc: Global, before: &[u8]) -> Result<Vec<u8>, NoMemory> {
    let mut text = Vec::new(alloc);
    if before.len() > 1000 {
        return Ok(text);
    }
    let tokens = tokens_of(alloc, before)?;
    let tried = candidates(alloc)?;
    let able = following(alloc, tokens.as_slice(), tokens.len(), tried.as_slice())?;
    for token in able.as_slice() {
        text.extend_from_slice(token.text)?;
        text.push(b' ')?;
    }
    Ok(text)
}

fn are_listed(alloc: Global, before: &[u8], wanted: &[u8]) -> bool {
    match listed(alloc, before) {
        Ok(text) => text.as_slice() == wanted,
        Err(NoMemory) => false,
    }
}

#[test]
fn next_tokens(rt: HostRuntime) {
    let alloc = rt.alloc();
    assert!(rt; are_listed(alloc, b"void main() { break", b"; "));
    assert!(rt; are_listed(alloc, b"void", b"a "));
    assert!(rt;
        are_listed(
            alloc,
            b"const int A =",
            b"a 1 \"\" OBJECT_SELF OBJECT_INVALID - 1.0 "
        )
    );
    assert!(rt;
        are_listed(
            alloc,
            b"void main(",
            b") int string object void struct effect event float vector location talent \
                itemproperty action "
        )
    );
}
