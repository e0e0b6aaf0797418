// Pieces of a line.
ghost use Rattle.std.specs.Prelude.{◌≡◌, ◌≤◌, ◌<◌, ◌++◌, [], length, codes, IfErr, OnOk};
ghost use Rattle.argot_report.specs.Growing.{TooLong};
ghost use Rattle.argot_report.specs.Names.{function_text, inside_text, place_text, site_text, variable_text};
ghost use Rattle.argot_report.specs.Report.{most_bytes, argument_text};

use crate::faults::ReportFault;
use crate::owner::function_of;
use argot_plain::{Ident, Program};
use argot_text::{Memory, Out, Pos};

/// Whether the text is short enough so far.
pub(crate) fn test_length(out: &Out) -> Result<(), ReportFault>
    ensures ok { OnOk result (length out.now ≤ most_bytes) }
    ensures err { IfErr result (TooLong out.now []) }
{
    if out.bytes().len() > 67108864 {
        return Err(ReportFault::Report);
    }
    Ok(())
}

/// Where the place stands.
pub(crate) fn push_place(out: &mut Out, program: &Program, place: u32) -> Result<(), Memory>
    ensures { OnOk result (out.new ≡ out.old ++ place_text program.now place) }
{
    if (place as usize) < program.len() {
        return out.push_pos(program.files(), program.instr(place as usize).at);
    }
    Ok(())
}

/// The name of the function that has the place.
pub(crate) fn push_function(out: &mut Out, program: &Program, place: u32) -> Result<(), Memory>
    ensures { OnOk result (out.new ≡ out.old ++ function_text program.now place) }
{
    if (place as usize) < program.len() {
        let g = function_of(program, place);
        return out.push_str(program.function(g).name.as_str());
    }
    Ok(())
}

/// `POS in FUNCTION`.
pub(crate) fn push_inside(out: &mut Out, program: &Program, place: u32) -> Result<(), Memory>
    ensures { OnOk result (out.new ≡ out.old ++ inside_text program.now place) }
{
    push_place(out, program, place)?;
    out.push_str(" in ")?;
    push_function(out, program, place)
}

/// `POS global PACKAGE.NAME`.
fn push_variable(
    out: &mut Out,
    program: &Program,
    variable: &(Ident, Pos, u32),
) -> Result<(), Memory>
    requires { variable.now.1.file < length program.now.files }
    ensures { OnOk result (out.new ≡ out.old ++ variable_text program.now.files variable.now) }
{
    out.push_pos(program.files(), variable.1)?;
    out.push_str(" global ")?;
    out.push_str(variable.0.package.as_str())?;
    out.push_str(".")?;
    out.push_str(variable.0.name.as_str())
}

/// Where objects of the site are made.
pub(crate) fn push_site(out: &mut Out, program: &Program, site: u32) -> Result<(), Memory>
    ensures { OnOk result (out.new ≡ out.old ++ site_text program.now site) }
{
    let number = site as usize;
    if number >= program.site_count() {
        return Ok(());
    }
    match program.globals().get(number) {
        Some(variable) => push_variable(out, program, variable),
        None => push_inside(out, program, program.site(number).place),
    }
}

/// ` arg K`, the end of a line.
pub(crate) fn push_argument(out: &mut Out, arg: u32) -> Result<(), Memory>
    ensures { OnOk result (out.new ≡ out.old ++ argument_text arg) }
{
    out.push_str(" arg ")?;
    out.push_number(u64::from(arg))?;
    out.push_str("\n")
}
