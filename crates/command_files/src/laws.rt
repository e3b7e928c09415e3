//! Laws about the parts that read and check files, each the contract of a function that does
//! nothing.

ghost use Rattle.command_files.specs.Laws.{SureBytes, SureTrees, SureCodes, SureAssemblies};
ghost use Rattle.command_files.specs.Laws.{SureCommands};
ghost use Rattle.command_files.specs.CheckLaws.{SureOps, SureLoaded, SureChecked, SureChecks};

use command_sources::laws::one_source;
use gff_read::one_tree;
use ncs_code::spelling_laws;
use ncs_file::one_fault;
use ncs_text::one_answer;

/// The bytes of a file of bytecode decide which instructions it has. What the files hold decides
/// what comes of a GFF file, a file of bytecode and an assembler text, and of each command over
/// them.
pub fn one_file()
    ensures bytes { SureBytes }
    ensures trees { SureTrees }
    ensures codes { SureCodes }
    ensures assemblies { SureAssemblies }
    ensures commands { SureCommands }
{
    one_tree();
    spelling_laws();
    one_fault();
    one_answer();
}

/// A header decides of instructions whether they are well stacked, and of the bytes of a compiled
/// file which instructions are loaded, or why none are. What the files hold decides what comes of a
/// check.
pub fn one_check()
    ensures ops { SureOps }
    ensures loaded { SureLoaded }
    ensures checked { SureChecked }
    ensures command { SureChecks }
{
    one_source();
    one_file();
}
