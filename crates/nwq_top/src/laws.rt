//! Laws about the work of commands, as the contract of a function that does nothing.

ghost use Rattle.nwq_top.specs.Answers.{EachHasOutcome, EachWholeHasOutcome, PlainHaveOutcomes};
ghost use Rattle.nwq_top.specs.Laws.{OneOutcome, Prefixes, OneWhole, WholePrefixes};
ghost use Rattle.nwq_top.specs.Laws.{CutsLeaveFronts, NamesChange, WholeCutsLeaveFronts};
ghost use Rattle.nwq_top.specs.Laws.{WholeAmounts, WholeNamesChange, WorksAmount};
ghost use Rattle.nwq_top.specs.Meaning.{WorkMeans, WholeMeans};

use crate::word_laws::{
    compiles_mean, generates_mean, plays_mean, resumes_mean, runs_mean, saves_mean,
};
use command_compile::laws::one_script;
use command_files::laws::{one_check, one_file};
use command_generate::laws::one_generated;
use command_meaning::{scripts_play_units, units_pass};
use command_play::laws::one_game;
use command_run::laws::one_run;
use command_save::laws::one_save;
use command_tables::laws::one_set_of_tables;
use engine_table::headers_have_tables;
use engine_table::laws::one_header;
use generator_laws::sources_compile;
use gff_read::read_trees_stand;
use ncs_code::{place_laws, size_laws, spelling_laws};
use nss_lexer::laws::some_split;
use nss_parser::laws::tree_or_place;
use plan_text::laws::plans_keep;
use play_save::code_is_bytes;
use play_states::first_entries_have_states;
use typing_rules::laws::verdicts_are_right;

/// A command that isn't cut has one outcome, which is all that its work amounts to: writes in
/// order, and a text. One that is cut has put a prefix of that text, and left the files as after a
/// front of those writes. So is the whole program, which reads tables first.
pub fn one_outcome()
    ensures one { OneOutcome }
    ensures prefixes { Prefixes }
    ensures whole { OneWhole }
    ensures whole_prefixes { WholePrefixes }
    ensures amounts { WorksAmount }
    ensures whole_amounts { WholeAmounts }
    ensures fronts { CutsLeaveFronts }
    ensures whole_fronts { WholeCutsLeaveFronts }
{
    one_file();
    one_script();
    one_check();
    one_run();
    one_game();
    one_generated();
    one_save();
    one_set_of_tables();
}

/// Each input has an answer: whatever the words are, whatever bytes the files and the cells of
/// tables hold, and whatever was taken, the work has an outcome that isn't cut. So has the whole
/// program. Of words for which no code is checked, and neither a plan nor a state is read, it is
/// there; of all others it is refuted that there is none, which is the same by excluded middle.
pub fn each_has_outcome()
    ensures each { EachHasOutcome }
    ensures whole { EachWholeHasOutcome }
    ensures plain { PlainHaveOutcomes }
{
    one_header();
    headers_have_tables();
    some_split();
    tree_or_place();
    verdicts_are_right();
    scripts_play_units();
    units_pass();
    sources_compile();
    spelling_laws();
    size_laws();
    place_laws();
    read_trees_stand();
    code_is_bytes();
    first_entries_have_states();
    plans_keep();
}

/// Which names a command changes: of those that it may write, `play` and `save` change the files of
/// the sources that the plan lists, and these and `resume` their last file only where the play is
/// done, or saved, or the call is cut. So it is of the whole program.
pub fn names_change()
    ensures change { NamesChange }
    ensures whole { WholeNamesChange }
{}

/// Whatever does the work of words does what they mean: it refuses what is to be refused; writes
/// files that pass the stack checker, and tells and leaves what source texts mean; and tells and
/// writes trees, checks and listings of what files hold.
pub fn work_means()
    ensures means { WorkMeans }
{
    one_file();
    one_check();
    runs_mean();
    compiles_mean();
    plays_mean();
    saves_mean();
    resumes_mean();
    generates_mean();
}

/// Whatever does the work of the whole program does what it means: the tables that the words give
/// are refused where they are to be, or else the words do what they mean, with cells looked up in
/// exactly these tables.
pub fn whole_means()
    ensures means { WholeMeans }
{
    work_means();
    one_set_of_tables();
}
