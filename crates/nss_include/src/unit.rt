ghost use Rattle.std.specs.Prelude.{◌≡◌, ◌<◌, ◌≤◌, [], ◌∷◌, ◌++◌, length, map, slice_get, OnOk};
ghost use Rattle.std.specs.Prelude.{OnErr, IfOk, Some};
ghost use Rattle.std.specs.List.{AllByRecursion};
ghost use Rattle.std.specs.Option.{option_map};
ghost use Rattle.nwq_value.specs.Limits.{file_limit, token_limit};
ghost use Rattle.nss_lexer.specs.Lexemes.{IsToken};
ghost use Rattle.nss_lexer.specs.Splitting.{plain};
ghost use Rattle.nss_include.specs.Names.{spot_in};
ghost use Rattle.nss_include.specs.Units.{is_among, source};
ghost use Rattle.nss_include.specs.View.{IsSpan, StandsIn, HasNames, lexeme_of, bytes_of};
ghost use Rattle.nss_include.specs.View.{file_count_limit};

use crate::fault::Spot;
use crate::file::Source;
use crate::step::Span;
use nss_lexer::Token;
use nwq_text::line_of;
use nwq_value::{Items, NameIndex, NoMemory, Text};
use std::alloc::Global;
use std::marker::Model;

/// The files of a script and its includes, and their tokens in a row.
#[derive(Drop)]
pub struct Unit {
    files: Vec<Source>,
    /// The names of the files, each with a number that nothing asks for.
    names: NameIndex,
    spans: Items<Span>,
}

impl Model for Unit {
    ghost use Rattle.std.specs.Prelude.{map};
    ghost use Rattle.nss_include.specs.View.{Gathered, lexeme_of, IsSound, HasNames};

    ghost Value = { Gathered };

    ghost view = { λ u. record {
      files = u.files.items;
      tokens = map (lexeme_of u.files.items) u.spans;
    } };

    ghost invariant = { λ u. IsSound u.files.items u.spans × HasNames u.files.items u.names };
}

/// Puts a file last, and its name to the names. With room for the file nothing is to be undone.
fn push_file(files: &mut Vec<Source>, names: &mut NameIndex, file: Source) -> Result<(), NoMemory>
    requires names { HasNames files.old.items names.old }
    ensures ok { OnOk result (files.new.items ≡ files.old.items ++ file ∷ []) }
    ensures err { OnErr result (files.new.items ≡ files.old.items) }
    ensures names { HasNames files.new.items names.new }
{
    files.reserve(1)?;
    names.set(file.name.as_slice(), files.len())?;
    files.push(file)?;
    Ok(())
}

impl Unit {
    /// The unit without files.
    pub(crate) fn new(alloc: Global) -> Unit
        ensures { result ≡ record { files = []; tokens = [] } }
    {
        Unit {
            files: Vec::new(alloc),
            names: NameIndex::new(alloc),
            spans: Items::new(alloc),
        }
    }

    /// The tokens of the unit, at most 100,000.
    pub fn tokens(&self, alloc: Global) -> Result<Vec<Token<'_>>, NoMemory>
        ensures tokens { IfOk result (λ made. map plain made.items ≡ self.now.tokens) }
        ensures spelled { IfOk result (λ made. AllByRecursion IsToken made.items) }
        ensures few { length self.now.tokens ≤ token_limit }
        ensures placed { AllByRecursion (StandsIn self.now.files) self.now.tokens }
    {
        tokens_of(alloc, self.files.as_slice(), self.spans.as_slice())
    }

    /// The name of a file, with `.nss`. The script is file 0, and the others follow in order of
    /// first mention.
    pub fn file_name(&self, file: u16) -> &[u8]
        requires file { file < length self.now.files }
        ensures name { option_map (λ f. f.name) (slice_get self.now.files file)
            ≡ Some result.now }
    {
        self.files.as_slice()[file as usize].name.as_slice()
    }

    /// The bytes of a file.
    pub fn file_bytes(&self, file: u16) -> &[u8]
        requires file { file < length self.now.files }
        ensures bytes { option_map (λ f. f.bytes) (slice_get self.now.files file)
            ≡ Some result.now }
        ensures size { length result.now ≤ file_limit }
    {
        self.files.as_slice()[file as usize].bytes.as_slice()
    }

    /// How many files the unit has.
    pub(crate) fn count(&self) -> usize
        ensures count { result ≡ length self.now.files }
        ensures few { result ≤ file_count_limit }
    {
        self.files.len()
    }

    /// Whether a file of this name is in the unit.
    pub(crate) fn has(&self, name: &[u8]) -> bool
        ensures { result ≡ is_among self.now.files name.now }
    {
        self.names.get(name).is_some()
    }

    /// Puts a file last.
    pub(crate) fn open(&mut self, name: Items<u8>, bytes: Items<u8>) -> Result<(), NoMemory>
        requires size { length bytes ≤ file_limit }
        requires few { length self.old.files < file_count_limit }
        ensures ok { OnOk result (self.new ≡ record {
          files = self.old.files ++ source name bytes ∷ [];
          tokens = self.old.tokens;
        }) }
        ensures err { OnErr result (self.new ≡ self.old) }
    {
        push_file(&mut self.files, &mut self.names, Source { name, bytes })?;
        Ok(())
    }

    /// Puts a token last.
    pub(crate) fn push(&mut self, span: Span) -> Result<(), NoMemory>
        requires span { IsSpan self.old.files span }
        requires short { length self.old.tokens < token_limit }
        ensures ok { OnOk result (self.new ≡ record {
          files = self.old.files;
          tokens = self.old.tokens ++ lexeme_of self.old.files span ∷ [];
        }) }
        ensures err { OnErr result (self.new ≡ self.old) }
    {
        self.spans.push(span)?;
        Ok(())
    }

    /// The place of the unit at this offset of a file: the file's name, the line there, and the
    /// offset.
    pub fn spot(&self, alloc: Global, file: u16, at: u32) -> Result<Spot, NoMemory>
        requires file { file < length self.now.files }
        requires place { at ≤ length (bytes_of (slice_get self.now.files file)) }
        ensures spot { IfOk result
            (λ spot. option_map (λ f. spot_in f at) (slice_get self.now.files file) ≡ Some spot) }
    {
        let source = &self.files.as_slice()[file as usize];
        Ok(Spot {
            name: Text::of(alloc, source.name.as_slice())?,
            line: line_of(source.bytes.as_slice(), at),
            at,
        })
    }
}

/// The tokens of these spans of these files.
fn tokens_of<'a>(
    alloc: Global,
    files: &'a [Source],
    spans: &[Span],
) -> Result<Vec<Token<'a>>, NoMemory>
    requires { AllByRecursion (IsSpan files.now) spans.now }
    ensures tokens { IfOk result
        (λ made. map plain made.items ≡ map (lexeme_of files.now) spans.now) }
    ensures spelled { IfOk result (λ made. AllByRecursion IsToken made.items) }
{
    let mut tokens = Vec::new(alloc);
    for span in spans {
        tokens.push(token_of(files, *span))?;
    }
    Ok(tokens)
}

/// The token of a span of one of these files.
fn token_of<'a>(files: &'a [Source], span: Span) -> Token<'a>
    requires { IsSpan files.now span }
    ensures token { plain result ≡ lexeme_of files.now span }
    ensures spelled { IsToken result }
{
    let bytes = files[span.file as usize].bytes.as_slice();
    Token {
        kind: span.kind,
        text: &bytes[span.start as usize..span.end as usize],
        file: span.file,
        start: span.start,
        end: span.end,
    }
}
