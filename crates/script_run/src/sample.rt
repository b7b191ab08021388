//! The script of a sample: a book of so many employees for a year.
ghost use Rattle.std.specs.Prelude.{◌≡◌, ◌≤◌, ◌+◌, ◌*◌, ◌∷◌, [], ◌++◌, length, map};
ghost use Rattle.std.specs.Prelude.{OnOk, OnErr, IfOk, string_bytes, codes};
ghost use Rattle.std.specs.List.{flat_map};
ghost use Rattle.script_run.specs.Samples.{add_line, change_line, year_lines};
ghost use Rattle.script_run.specs.Samples.{sample_lines, numbers, script_of};
ghost use Rattle.script_run.specs.Limits.{most_script, most_employees};
ghost use Rattle.script_run.specs.Transcripts.{lines_of};
ghost use Rattle.script_run.specs.RunClauses.{IsFinished, IsSpentWithin};
ghost use Rattle.script_run.specs.SampleFiles.{named_texts, sample_plan, sample_limits, sample_files};
ghost use Rattle.outside.specs.Memory.{named_files};

use crate::memory::run_in_memory;
use crate::turns::Ended;
use payroll_records::Month;
use std::alloc::{AllocError, Global};
use std::sync::ledger::Ledger;
use steps::Steps;

/// The most employees of a sample.
pub const MOST_EMPLOYEES: u32 = 200;

/// The flowchart of a sample: the tax is 14 % of the pay above 100,000, and KUM the tax of the year so far.
pub(crate) const SAMPLE_PLAN: &[u8] = br#"<PAP><INTERFACE>
<INPUTS><INPUT name="RE4" type="BigDecimal"/><INPUT name="SUMV" type="BigDecimal"/></INPUTS>
<OUTPUTS type="STANDARD"><OUTPUT name="LST" type="BigDecimal"/><OUTPUT name="KUM" type="BigDecimal"/></OUTPUTS>
</INTERFACE>
<INTERNALS><INTERNAL name="X" type="BigDecimal"/></INTERNALS>
<CONSTANTS>
<CONSTANT name="FREI" type="BigDecimal" value="BigDecimal.valueOf(100000)"/>
<CONSTANT name="SATZ" type="BigDecimal" value="BigDecimal.valueOf(0.14)"/>
</CONSTANTS>
<METHODS><MAIN>
<EXECUTE method="TARIF"/><EVAL exec="KUM= SUMV.add(LST)"/>
</MAIN><METHOD name="TARIF">
<EVAL exec="X= RE4.subtract(FREI)"/>
<IF expr="X.compareTo(BigDecimal.ZERO) == -1"><THEN><EVAL exec="X= BigDecimal.ZERO"/></THEN></IF>
<EVAL exec="LST= X.multiply(SATZ).setScale(0, BigDecimal.ROUND_DOWN)"/>
</METHOD></METHODS></PAP>
"#;

/// The range file of a sample: the pay is at most 10,000,000,000, and SUMV is the sum of the year's earlier LST.
pub(crate) const SAMPLE_LIMITS: &[u8] = br#"[input.RE4]
low = 0
high = "10000000000"
places = 0
[input.SUMV]
low = 0
high = 100000000
places = 0
[bind.SUMV]
kind = "sum"
output = "LST"
"#;

/// The pay of an employee in a month.
fn pay_of(employee: u32, month: u8) -> u32
    requires employees { employee ≤ most_employees }
    requires months { month ≤ 12 }
    ensures { result ≡ 100000 + 1000 * employee * month }
{
    100_000 + 1000 * employee * u32::from(month)
}

/// Appends the record of an employee for a month of 2025, as a line.
fn write_record(script: &mut String, employee: u32, month: u8) -> Result<(), AllocError>
    requires employees { employee ≤ most_employees }
    requires first { 1 ≤ month }
    requires last { month ≤ 12 }
    ensures { OnOk result (string_bytes script.new
        ≡ string_bytes script.old ++ (add_line employee month ++ 10 ∷ [])) }
{
    let value = pay_of(employee, month);
    let month = Month::new(2025, month).unwrap();
    write!(script, "add E{employee} {month} {month}-28 RE4={value}\n")
}

/// Appends the correction of an employee's March, as a line.
fn write_correction(script: &mut String, employee: u32) -> Result<(), AllocError>
    ensures { OnOk result (string_bytes script.new
        ≡ string_bytes script.old ++ (change_line employee ++ 10 ∷ [])) }
{
    write!(script, "change E{employee} 2025-03 2025-03-28 RE4=50000\n")
}

/// Appends an employee's twelve records.
fn write_year(script: &mut String, employee: u32) -> Result<(), AllocError>
    requires employees { employee ≤ most_employees }
    ensures { OnOk result (string_bytes script.new
        ≡ string_bytes script.old ++ script_of (year_lines employee)) }
{
    for month in 1..=12 {
        write_record(script, employee, month)?;
    }
    Ok(())
}

/// Appends the records of so many employees.
fn write_years(script: &mut String, employees: u32) -> Result<(), AllocError>
    requires employees { employees ≤ most_employees }
    ensures { OnOk result (string_bytes script.new
        ≡ string_bytes script.old ++ script_of (flat_map year_lines (numbers employees))) }
{
    for employee in 1..=employees {
        write_year(script, employee)?;
    }
    Ok(())
}

/// Appends the corrections of so many employees.
fn write_corrections(script: &mut String, employees: u32) -> Result<(), AllocError>
    requires employees { employees ≤ most_employees }
    ensures { OnOk result (string_bytes script.new
        ≡ string_bytes script.old ++ script_of (map change_line (numbers employees))) }
{
    for employee in 1..=employees {
        write_correction(script, employee)?;
    }
    Ok(())
}

/// The script of a sample of so many employees: a plan, each employee's records of a year, a correction of each one's
/// March, and a report.
pub(crate) fn sample_script(alloc: Global, employees: u32) -> Result<String, AllocError>
    requires employees { employees ≤ most_employees }
    ensures text { IfOk result (λ script.
        string_bytes script ≡ script_of (sample_lines employees)) }
    ensures lines { IfOk result (λ script.
        lines_of (string_bytes script) ≡ sample_lines employees) }
    ensures short { IfOk result (λ script. length (string_bytes script) ≤ most_script) }
{
    let mut script = String::from_str(alloc, "plan 2025-01-01 p2.xml l2.toml\n")?;
    write_years(&mut script, employees)?;
    write_corrections(&mut script, employees)?;
    script.push_str("report\n")?;
    Ok(script)
}

/// The number of lines of the script of a sample.
pub fn sample_line_count(employees: u32) -> u32
    requires { employees ≤ most_employees }
    ensures { result ≡ length (sample_lines employees) }
{
    13 * employees + 2
}

/// The flowchart of a sample, with its name.
fn plan_file(alloc: Global) -> Result<(String, Vec<u8>), AllocError>
    ensures name { IfOk result (λ file. string_bytes file.0 ≡ codes "p2.xml") }
    ensures text { IfOk result (λ file. file.1.items ≡ sample_plan) }
{
    Ok((
        String::from_str(alloc, "p2.xml")?,
        Vec::from_slice(alloc, SAMPLE_PLAN)?,
    ))
}

/// The range file of a sample, with its name.
fn limits_file(alloc: Global) -> Result<(String, Vec<u8>), AllocError>
    ensures name { IfOk result (λ file. string_bytes file.0 ≡ codes "l2.toml") }
    ensures text { IfOk result (λ file. file.1.items ≡ sample_limits) }
{
    Ok((
        String::from_str(alloc, "l2.toml")?,
        Vec::from_slice(alloc, SAMPLE_LIMITS)?,
    ))
}

/// Both files of a sample.
fn sample_files(alloc: Global) -> Result<Vec<(String, Vec<u8>)>, AllocError>
    ensures { IfOk result (λ files. named_files files.items ≡ named_texts) }
{
    let plan = plan_file(alloc)?;
    let limits = limits_file(alloc)?;
    Ok(vec![in alloc; plan, limits]?)
}

/// Runs the script of a sample in memory, over the two files that its lines name. Nothing outside is touched. The counter
/// rises by the script's steps; where memory runs out, by at most these.
pub fn run_sample<L: Ledger>(
    alloc: Global,
    employees: u32,
    steps: &mut Steps<L>,
) -> Result<Ended, AllocError>
    requires { employees ≤ most_employees }
    ensures ok { IfOk result (λ ended. IsFinished sample_files
        (script_of (sample_lines employees)) steps.old steps.new ended) }
    ensures memory { OnErr result (IsSpentWithin sample_files
        (script_of (sample_lines employees)) steps.old steps.new) }
{
    let script = sample_script(alloc, employees)?;
    let files = sample_files(alloc)?;
    run_in_memory(alloc, files, script.into_bytes(), steps)
}
