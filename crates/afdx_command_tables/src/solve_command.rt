//! The command `solve`.

ghost use Rattle.std.specs.Prelude.{◌≡◌, ◌⊎◌, ◌++◌, ◌<◌, IfOk, true, false, length, string_bytes, ℕ, List};
ghost use Rattle.afdx_config.specs.Asked.{lists};
ghost use Rattle.afdx_config.specs.Lawful.{IsLawful};
ghost use Rattle.afdx_config.specs.ToSolve.{IsToSolve};
ghost use Rattle.afdx_admit.specs.AtSwitch.{IsKnownAt};
ghost use Rattle.afdx_admit.specs.Known.{IsKnown};
ghost use Rattle.afdx_command_tables.specs.CascadeText.{cascade_fault_line};
ghost use Rattle.afdx_command_tables.specs.CheckText.{fault_line};
ghost use Rattle.afdx_command_tables.specs.SolveText.{short_line, short_line_at};
ghost use Rattle.afdx_command_tables.specs.Solving.{IsSolutionOfOne, IsDenialOfOne, IsShortOfOne};
ghost use Rattle.afdx_command_tables.specs.Solving.{IsSolutionOfSeveral, IsDenialOfSeveral, IsShortOfSeveral};
ghost use Rattle.afdx_command_tables.specs.Solving.{IsSolution, IsDenial};
ghost use Rattle.afdx_command_tables.specs.Solving.{IsSolved, IsUnsolved, IsFaulty, IsCut, IsUnmade};
ghost use Rattle.afdx_input_lines.specs.Watching.{has_failed};

use crate::refusing::{refuse_file, want_memory};
use crate::solve_needs::{needs_of, needs_of_cascade};
use crate::status::{DONE, REFUSED};
use afdx_admit::laws::lines_are_admission;
use afdx_admit::{AdmitFault, CascadeFault};
use afdx_config::{Switches, Tables, ToSolve, read_file_to_solve};
use afdx_input_lines::Watched;
use afdx_solve::laws::{cascade_is_least, each_is_least, none_is_short};
use afdx_solve::{
    Short, ShortAt, SolveOptions, cascade_text, config_text, first_short, first_short_at, solve,
    solve_cascade,
};
use afdx_text::{tell, tell_fault, write_text};
use std::alloc::{AllocError, Global};
use std::io::Write;

/// The line of tables that aren't admitted.
fn denial(alloc: Global, tables: &Tables, fault: AdmitFault) -> Result<String, AllocError>
    requires { IsKnown tables.now fault }
    ensures { IfOk result (λ text. string_bytes text ≡ fault_line tables.now fault) }
{
    let fault = fault.text(tables);
    format!(in alloc; "no {fault}\n")
}

/// The line of switches that aren't.
fn cascade_denial(
    alloc: Global,
    switches: &Switches,
    fault: CascadeFault,
) -> Result<String, AllocError>
    requires { IsKnownAt switches.now fault }
    ensures { IfOk result (λ text. string_bytes text ≡ cascade_fault_line switches.now fault) }
{
    let fault = fault.text(switches);
    format!(in alloc; "no {fault}\n")
}

/// The line of a link that leaves the copies of its frames less than is asked for.
fn short_denial(alloc: Global, short: Short) -> Result<String, AllocError>
    ensures { IfOk result (λ text. string_bytes text ≡ short_line short) }
{
    let (vl, ns) = (short.vl.0, short.ns);
    format!(in alloc; "no apart {vl} {ns}\n")
}

/// The same of several switches.
fn cascade_short(alloc: Global, switches: &Switches, found: ShortAt) -> Result<String, AllocError>
    requires { found.switch.0 < length switches.now }
    ensures { IfOk result (λ text. string_bytes text ≡ short_line_at switches.now found) }
{
    let name = switches.name(found.switch);
    let (vl, ns) = (found.short.vl.0, found.short.ns);
    format!(in alloc; "no apart {name} {vl} {ns}\n")
}

/// What is written and told.
#[derive(Drop)]
struct SolveAnswer {
    text: String,
    needs: String,
    is_solution: bool,
}

/// That there is no solution.
fn no_solution(alloc: Global, text: String) -> SolveAnswer
    ensures text { result.text ≡ text }
    ensures denial { result.is_solution ≡ false }
{
    SolveAnswer {
        text,
        needs: String::new(alloc),
        is_solution: false,
    }
}

/// The solution of the tables of one switch, or the line that says that there is none.
fn answer_of_one(
    alloc: Global,
    options: SolveOptions,
    tables: Tables,
    asked: &[Option<u64>],
) -> Result<SolveAnswer, AllocError>
    ensures solution { IfOk result (λ answer. answer.is_solution ≡ true → IsLawful tables →
        IsSolutionOfOne options tables asked.now
        (string_bytes answer.text) (string_bytes answer.needs)) }
    ensures denial { IfOk result (λ answer. answer.is_solution ≡ false →
        IsDenialOfOne options tables (string_bytes answer.text)
        ⊎ IsShortOfOne options tables (string_bytes answer.text)) }
{
    match solve(tables, options) {
        Ok(admitted) => {
            let tables = admitted.tables();
            if let Some(short) = first_short(options.apart, tables) {
                let denial = short_denial(alloc, short)?;
                return Ok(no_solution(alloc, denial));
            }
            // (laws: they do nothing, and let the proof cite that each solved key is the least, and
            // that each link leaves what is asked for)
            each_is_least();
            none_is_short();
            let text = config_text(alloc, tables)?;
            let needs = needs_of(alloc, tables, asked)?;
            Ok(SolveAnswer {
                text,
                needs,
                is_solution: true,
            })
        }
        Err((tables, fault)) => {
            // (a law: tables are admitted just where no line of admission is false)
            lines_are_admission();
            let text = denial(alloc, &tables, fault)?;
            Ok(no_solution(alloc, text))
        }
    }
}

/// The same of several switches.
fn answer_of_several(
    alloc: Global,
    options: SolveOptions,
    switches: Switches,
    asked: &[Vec<Option<u64>>],
) -> Result<SolveAnswer, AllocError>
    ensures solution { IfOk result (λ answer. answer.is_solution ≡ true →
        IsSolutionOfSeveral options switches (lists asked.now)
        (string_bytes answer.text) (string_bytes answer.needs)) }
    ensures denial { IfOk result (λ answer. answer.is_solution ≡ false →
        IsDenialOfSeveral options switches (string_bytes answer.text)
        ⊎ IsShortOfSeveral options switches (string_bytes answer.text)) }
{
    match solve_cascade(switches, options) {
        Ok(admitted) => {
            let switches = admitted.switches();
            if let Some(found) = first_short_at(options.apart, switches) {
                let denial = cascade_short(alloc, switches, found)?;
                return Ok(no_solution(alloc, denial));
            }
            // (laws: no admitted switches that differ in these keys alone have a smaller value, and
            // each link leaves what is asked for)
            cascade_is_least();
            none_is_short();
            let text = cascade_text(alloc, switches)?;
            let needs = needs_of_cascade(alloc, switches, asked)?;
            Ok(SolveAnswer {
                text,
                needs,
                is_solution: true,
            })
        }
        Err((switches, fault)) => {
            let text = cascade_denial(alloc, &switches, fault)?;
            Ok(no_solution(alloc, text))
        }
    }
}

/// The solution of what a file describes, or the line that says that there is none.
fn answer_of(alloc: Global, options: SolveOptions, file: ToSolve) -> Result<SolveAnswer, AllocError>
    ensures solution { IfOk result (λ answer. answer.is_solution ≡ true → (config : List ℕ) →
        IsToSolve options.kept config file →
        IsSolution options config (string_bytes answer.text) (string_bytes answer.needs)) }
    ensures denial { IfOk result (λ answer. answer.is_solution ≡ false → (config : List ℕ) →
        IsToSolve options.kept config file →
        IsDenial options config (string_bytes answer.text)) }
{
    match file {
        ToSolve::One(tables, asked) => answer_of_one(alloc, options, tables, asked.as_slice()),
        ToSolve::Several(switches, asked) => {
            answer_of_several(alloc, options, switches, asked.as_slice())
        }
    }
}

/// Reads a configuration, in which jitter, buffer, latency and skew may be absent or any whole
/// number from 0 on, and writes it with the least of each with which its network is admitted: of
/// one switch each from those before it, as written; of several the least that are enough for each
/// other. Kept keys stay; keys that are only raised stay where they are more. Each skew allows for
/// copies of which one is sent later by what `options` ask for, which is no time unless they say
/// otherwise. The text has one layout, without the remarks of the file.
///
/// A line `vl 20 at 3: 111111 ns needed, 100 us asked` is told on `errors` for each link and output
/// port where the bound, with the written jitters, is more than the latency that stands in the
/// configuration, ports ascending, and links in the order of the file. Of several switches it is
/// `vl 20 at fwd 3: ..`, switches in the order of the file. Where no such values are enough, `no`
/// is written and the first line of admission that is false; where a link then leaves its copies
/// less than is asked for, `no apart vl ns`, of several switches `no apart switch vl ns`, with what
/// it leaves. A fault's one line goes to `errors`.
///
/// It gives the exit status: 0 where a configuration is written, 1 where there is none or the one
/// that was read has a fault, 4 for a device, of which a beginning of the text is written, or
/// memory, of which nothing is.
pub fn solve_config<O: Write, E: Write>(
    alloc: Global,
    options: SolveOptions,
    config: &[u8],
    output: &mut Watched<O>,
    errors: &mut Watched<E>,
) -> u8
    requires { has_failed output.old ≡ false }
    ensures statuses { (result ≡ 0) ⊎ (result ≡ 1) ⊎ (result ≡ 4) }
    ensures device { has_failed output.new ≡ true → result ≡ 4 }
    ensures solution { result ≡ 0 → IsSolved options O.contents E.contents config.now
        (output.old, errors.old) (output.new, errors.new) }
    ensures refused { result ≡ 1 →
        IsUnsolved options O.contents E.contents config.now
        (output.old, errors.old) (output.new, errors.new)
        ⊎ IsFaulty options O.contents E.contents config.now
        (output.old, errors.old) (output.new, errors.new) }
    ensures stopped { result ≡ 4 →
        IsCut options O.contents E.contents config.now
        (output.old, errors.old) (output.new, errors.new)
        ⊎ IsUnmade options O.contents E.contents config.now
        (output.old, errors.old) (output.new, errors.new) }
{
    let file = match read_file_to_solve(alloc, config, options.kept) {
        Ok(file) => file,
        Err(fault) => return refuse_file(fault, errors),
    };
    let Ok(answer) = answer_of(alloc, options, file) else {
        return want_memory(errors);
    };
    match write_text(output, answer.text.as_bytes()) {
        Ok(()) if answer.is_solution => {
            tell(errors, answer.needs.as_bytes());
            DONE
        }
        Ok(()) => REFUSED,
        Err(fault) => {
            tell_fault(errors, &fault);
            fault.status()
        }
    }
}
