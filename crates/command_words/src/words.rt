ghost use Rattle.std.specs.Prelude.{◌≡◌, map, string_bytes, bytes_eq};
ghost use Rattle.std.specs.List.{list_any};
ghost use Rattle.std.specs.Option.{option_map};
ghost use Rattle.nwq_text.specs.Number.{number_of};
ghost use Rattle.command_words.specs.Words.{is_option, command_form, generate_form, one_word_form};
ghost use Rattle.command_words.specs.Words.{two_word_form, three_word_form, four_word_form};
ghost use Rattle.command_words.specs.Words.{five_word_form, six_word_form};
ghost use Rattle.command_words.specs.Words.{run_form, compile_form, save_form};
ghost use Rattle.command_words.specs.Words.{form_of, list_of, IsCommand};

use nwq_text::{is_script_name, read_number};
use play_generator::NUMBER_LIMIT;

/// As many entries as a play may have.
const MOST_ENTRIES: u64 = 1_000_000;

/// A command, as its words say it.
#[derive(Clone, Copy)]
pub enum Command<'a> {
    /// Plays one start entry of the second, a script, under the header that the first names.
    Run(&'a str, &'a str),
    /// Writes the file of bytecode of the second, a script, under the header that the first names.
    Compile(&'a str, &'a str),
    /// Shows the tree of a GFF file.
    Tree(&'a str),
    /// Checks the second, a file of bytecode, under the header that the first names.
    Check(&'a str, &'a str),
    /// Writes the text of the first, a file of bytecode, under the second name.
    Disassemble(&'a str, &'a str),
    /// Writes the file of the first, an assembler text, under the second name.
    Assemble(&'a str, &'a str),
    /// Plays a plan over the area of a GFF file, under the header that the first names, with the
    /// tables that the list names, and leaves the area in a file.
    Play {
        header: &'a str,
        area: &'a str,
        plan: &'a str,
        to: &'a str,
        list: Option<&'a str>,
    },
    /// Plays what is made from a number.
    Generate(u32),
    /// Plays as `Play` does, breaks off after so many entries, and leaves the play's state in a
    /// file.
    Save {
        header: &'a str,
        area: &'a str,
        plan: &'a str,
        entries: u64,
        state: &'a str,
        list: Option<&'a str>,
    },
    /// Plays on from the state of a play, and leaves the area in a file.
    Resume {
        state: &'a str,
        to: &'a str,
        list: Option<&'a str>,
    },
    /// The words are no form of a command.
    NoForm,
}

/// Whether the word begins with `-` and isn't `-` alone.
fn is_dashed(word: &str) -> bool
    ensures { result ≡ is_option word.now }
{
    match word.as_bytes() {
        [] => false,
        [_] => false,
        [first, ..] => *first == b'-',
    }
}

fn has_dashed(words: &[String]) -> bool
    ensures { result ≡ list_any (λ word. is_option (string_bytes word)) words.now }
{
    words.iter().any(|word| is_dashed(word.as_str()))
}

fn is_word(word: &str, name: &str) -> bool
    ensures { result ≡ bytes_eq word.now name.now }
{
    word == name
}

/// Plays what is made from the number that the word writes.
fn generate_word<'a>(word: &str) -> Command<'a>
    ensures { IsCommand result (generate_form (number_of word.now)) }
{
    match read_number(word.as_bytes()) {
        None => Command::NoForm,
        Some(number) => {
            if number <= u64::from(NUMBER_LIMIT) {
                Command::Generate(number as u32)
            } else {
                Command::NoForm
            }
        }
    }
}

fn one_word<'a>(command: &str, word: &'a str) -> Command<'a>
    ensures { IsCommand result (one_word_form command.now word.now) }
{
    if is_word(command, "tree") {
        Command::Tree(word)
    } else if is_word(command, "generate") {
        generate_word(word)
    } else {
        Command::NoForm
    }
}

fn run_words<'a>(header: &'a str, script: &'a str) -> Command<'a>
    ensures { IsCommand result (run_form header.now script.now) }
{
    if is_script_name(script.as_bytes()) {
        Command::Run(header, script)
    } else {
        Command::NoForm
    }
}

fn compile_words<'a>(header: &'a str, script: &'a str) -> Command<'a>
    ensures { IsCommand result (compile_form header.now script.now) }
{
    if is_script_name(script.as_bytes()) {
        Command::Compile(header, script)
    } else {
        Command::NoForm
    }
}

fn two_words<'a>(command: &str, first: &'a str, second: &'a str) -> Command<'a>
    ensures { IsCommand result (two_word_form command.now first.now second.now) }
{
    if is_word(command, "run") {
        run_words(first, second)
    } else if is_word(command, "compile") {
        compile_words(first, second)
    } else if is_word(command, "check") {
        Command::Check(first, second)
    } else if is_word(command, "dis") {
        Command::Disassemble(first, second)
    } else if is_word(command, "asm") {
        Command::Assemble(first, second)
    } else if is_word(command, "resume") {
        Command::Resume {
            state: first,
            to: second,
            list: None,
        }
    } else {
        Command::NoForm
    }
}

fn three_words<'a>(command: &str, state: &'a str, to: &'a str, list: &'a str) -> Command<'a>
    ensures { IsCommand result (three_word_form command.now state.now to.now list.now) }
{
    if is_word(command, "resume") {
        Command::Resume {
            state,
            to,
            list: Some(list),
        }
    } else {
        Command::NoForm
    }
}

fn four_words<'a>(
    command: &str,
    header: &'a str,
    area: &'a str,
    plan: &'a str,
    to: &'a str,
) -> Command<'a>
    ensures { IsCommand result
        (four_word_form command.now header.now area.now plan.now to.now) }
{
    if is_word(command, "play") {
        Command::Play {
            header,
            area,
            plan,
            to,
            list: None,
        }
    } else {
        Command::NoForm
    }
}

/// Saves the state of a play after as many entries as the word writes.
fn save_words<'a>(
    header: &'a str,
    area: &'a str,
    plan: &'a str,
    entries: &str,
    state: &'a str,
    list: Option<&'a str>,
) -> Command<'a>
    ensures { IsCommand result (save_form header.now area.now plan.now (number_of entries.now)
        state.now (option_map (λ name. name.now) list.entry)) }
{
    match read_number(entries.as_bytes()) {
        None => Command::NoForm,
        Some(entries) => {
            if 1 <= entries && entries <= MOST_ENTRIES {
                Command::Save {
                    header,
                    area,
                    plan,
                    entries,
                    state,
                    list,
                }
            } else {
                Command::NoForm
            }
        }
    }
}

fn five_words<'a>(
    command: &str,
    header: &'a str,
    area: &'a str,
    plan: &'a str,
    fourth: &'a str,
    fifth: &'a str,
) -> Command<'a>
    ensures { IsCommand result
        (five_word_form command.now header.now area.now plan.now fourth.now fifth.now) }
{
    if is_word(command, "play") {
        Command::Play {
            header,
            area,
            plan,
            to: fourth,
            list: Some(fifth),
        }
    } else if is_word(command, "save") {
        save_words(header, area, plan, fourth, fifth, None)
    } else {
        Command::NoForm
    }
}

fn six_words<'a>(
    command: &str,
    header: &'a str,
    area: &'a str,
    plan: &'a str,
    entries: &str,
    state: &'a str,
    list: &'a str,
) -> Command<'a>
    ensures { IsCommand result (six_word_form command.now header.now area.now plan.now
        entries.now state.now list.now) }
{
    if is_word(command, "save") {
        save_words(header, area, plan, entries, state, Some(list))
    } else {
        Command::NoForm
    }
}

fn command_by(words: &[String]) -> Command<'_>
    ensures { IsCommand result (command_form (map string_bytes words.now)) }
{
    match words {
        [command, file] => one_word(command.as_str(), file.as_str()),
        [command, first, second] => two_words(command.as_str(), first.as_str(), second.as_str()),
        [command, state, to, list] => three_words(
            command.as_str(),
            state.as_str(),
            to.as_str(),
            list.as_str(),
        ),
        [command, header, area, plan, to] => four_words(
            command.as_str(),
            header.as_str(),
            area.as_str(),
            plan.as_str(),
            to.as_str(),
        ),
        [command, header, area, plan, fourth, fifth] => five_words(
            command.as_str(),
            header.as_str(),
            area.as_str(),
            plan.as_str(),
            fourth.as_str(),
            fifth.as_str(),
        ),
        [command, header, area, plan, entries, state, list] => six_words(
            command.as_str(),
            header.as_str(),
            area.as_str(),
            plan.as_str(),
            entries.as_str(),
            state.as_str(),
            list.as_str(),
        ),
        _ => Command::NoForm,
    }
}

/// The command that these words are.
#[tactic(auto, using(crate::proofs::WordLemmas::any_dashed))]
pub fn command_of(words: &[String]) -> Command<'_>
    ensures command { IsCommand result (form_of (map string_bytes words.now)) }
{
    if has_dashed(words) {
        Command::NoForm
    } else {
        command_by(words)
    }
}

/// The list of tables that these words give.
pub fn list_in(words: &[String]) -> Option<&str>
    ensures list { option_map (λ name. name.now) result
        ≡ list_of (form_of (map string_bytes words.now)) }
{
    match command_of(words) {
        Command::Play { list, .. } => list,
        Command::Save { list, .. } => list,
        Command::Resume { list, .. } => list,
        _ => None,
    }
}
