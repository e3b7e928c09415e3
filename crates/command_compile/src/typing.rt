ghost use Rattle.std.specs.Prelude.{◌≡◌, ℕ, IsTrue, IfErr, IfOk};
ghost use Rattle.nss_tree.specs.Reading.{plain_tree};
ghost use Rattle.typing_rules.specs.Meaning.{TypesUnit};
ghost use Rattle.typing_rules.specs.UnitReading.{typed_unit};
ghost use Rattle.typing_laws.specs.Laws.{HasCode};
ghost use Rattle.command_work.specs.Counts.{Refusing};
ghost use Rattle.command_work.specs.Calls.{TalliesPuts, DoesPuts};
ghost use Rattle.command_sources.specs.Scripts.{plain_script};
ghost use Rattle.command_compile.specs.Typings.{cause_of, plain_typed_answer, typed_in};

use crate::script::TypedScript;
use command_sources::{Script, refuse_token};
use command_work::{Cause, Status};
use nss_types::{TypeFault, type_unit};
use nwq_outside::Sink;
use nwq_value::Table;
use std::alloc::Global;
use typing_laws::laws::typed_units_have_code;
use typing_rules::FaultKind;

fn cause_of(kind: FaultKind) -> Cause
    ensures { result ≡ cause_of kind }
{
    match kind {
        FaultKind::RefusedType => Cause::RefusedType,
        FaultKind::Unknown => Cause::Unknown,
        FaultKind::Redeclared => Cause::Redeclared,
        FaultKind::Arity => Cause::Arity,
        FaultKind::NotConst => Cause::NotConst,
        FaultKind::NotPlace => Cause::NotPlace,
        FaultKind::Outside => Cause::Outside,
        FaultKind::Mismatch => Cause::Mismatch,
        FaultKind::NoReturn => Cause::NoReturn,
        FaultKind::Cells => Cause::Cells,
        FaultKind::Entry => Cause::Entry,
    }
}

/// The typed unit of a script under a header. A script that has none is refused at its least fault.
#[tactic(auto, using(crate::proofs::TypingLemmas::typings))]
pub fn type_script<S: Sink>(
    alloc: Global,
    table: &Table,
    script: Script,
    out: &mut S,
) -> Result<TypedScript, Status>
    ensures does { IsTrue S.tells → DoesPuts S.taken (typed_in table.now (plain_script script))
        out.old (plain_typed_answer result) out.new }
    ensures same { IfOk result (λ typed. typed.unit ≡ script.unit) }
    ensures code { IfOk result (λ typed. HasCode (typed_unit typed.typed)) }
    ensures types { IfOk result
        (λ typed. TypesUnit table.now (plain_tree script.tree) (typed_unit typed.typed)) }
    ensures counts { TalliesPuts S.faults result out.old out.new }
    ensures only { IfErr result (Refusing Status.Script) }
{
    let Script { unit, tree } = script;
    table.keeps();
    typed_units_have_code();
    match type_unit(alloc, tree, table) {
        Ok(typed) => Ok(TypedScript { unit, typed }),
        Err(TypeFault::NoMemory) => Err(Status::Memory),
        Err(TypeFault::Fault(fault)) => {
            let cause = cause_of(fault.kind);
            Err(refuse_token(alloc, &unit, fault.token as usize, cause, out))
        }
    }
}
