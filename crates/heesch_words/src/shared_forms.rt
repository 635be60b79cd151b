//! What words give after the first one, in the forms that two commands share.

ghost use Rattle.std.specs.Prelude.{ℕ, Bool, false, map, string_bytes, IfOk, OnErr};
ghost use Rattle.heesch_cert.specs.declared.header.Subject.{Subject};
ghost use Rattle.heesch_cert.specs.declared.limits.Limits.{Limits};
ghost use Rattle.heesch_grid.specs.declared.GridName.{GridName};
ghost use Rattle.heesch_cnf.specs.declared.version.Version.{Version as FormulaVersion};
ghost use Rattle.heesch_words.specs.Requests.{HasListForm, HasClassifyForm, HasFormulaForm};

use crate::Usage;
use crate::numbers::number;
use crate::options::{MOST_LEVELS, Options};
use crate::subjects::{grid_named, subject_named};
use heesch_cert::{Limits, Subject, has_grid, most_cells};
use heesch_cnf::Version;
use heesch_grid::GridName;

/// What the words GRID N give, with the option `--workers`.
pub struct ListForm {
    pub grid: GridName,
    pub n: u32,
    pub workers: u32,
}

/// What these words give after `list` or `plain`.
pub fn list_form(words: &[String]) -> Result<ListForm, Usage>
    ensures ok { IfOk result
        (λ form. HasListForm (map string_bytes words.now) form.grid form.n form.workers) }
    ensures usage { OnErr result ((grid : GridName) (n workers : ℕ)
        → ¬ HasListForm (map string_bytes words.now) grid n workers) }
{
    let [grid, n, options @ ..] = words else {
        return Err(Usage);
    };
    let grid = grid_named(grid.as_str())?;
    let n = number(n.as_str(), 1, u64::from(most_cells(Version::Two, grid)))? as u32;
    let options = Options::read(options)?;
    let workers = options.workers_alone()?;
    Ok(ListForm { grid, n, workers })
}

/// What the words GRID N or GRID `given` give, with the options of a catalogue.
#[derive(Drop)]
pub struct ClassifyForm {
    pub grid: GridName,
    pub subject: Subject,
    pub limits: Limits,
    pub workers: u32,
    pub brief: bool,
}

/// What these words give after `classify`.
pub fn classify_form(words: &[String]) -> Result<ClassifyForm, Usage>
    ensures ok { IfOk result
        (λ form. HasClassifyForm
        (map string_bytes words.now) form.grid form.subject form.limits form.workers form.brief) }
    ensures usage { OnErr result
        ((grid : GridName) (subject : Subject) (limits : Limits) (workers : ℕ) (brief : Bool)
        → ¬ HasClassifyForm (map string_bytes words.now) grid subject limits workers brief) }
{
    let [grid, subject, options @ ..] = words else {
        return Err(Usage);
    };
    let grid = grid_named(grid.as_str())?;
    let options = Options::read(options)?;
    let limits = options.limits();
    let subject = subject_named(limits.version, grid, subject.as_str())?;
    Ok(ClassifyForm {
        grid,
        subject,
        limits,
        workers: options.workers(),
        brief: options.brief,
    })
}

/// What these words give after `outer` and after `check outer`: `--brief` isn't taken.
pub fn full_form(words: &[String]) -> Result<ClassifyForm, Usage>
    ensures ok { IfOk result
        (λ form. HasClassifyForm
        (map string_bytes words.now) form.grid form.subject form.limits form.workers false) }
    ensures usage { OnErr result
        ((grid : GridName) (subject : Subject) (limits : Limits) (workers : ℕ)
        → ¬ HasClassifyForm (map string_bytes words.now) grid subject limits workers false) }
{
    let form = classify_form(words)?;
    if form.brief {
        return Err(Usage);
    }
    Ok(form)
}

/// What the words GRID J give, with the options `--size` and `--version`.
pub struct FormulaForm {
    pub grid: GridName,
    pub level: u32,
    pub size: u32,
    pub version: Version,
}

/// What these words give after `formula` or `answer`.
pub fn formula_form(words: &[String]) -> Result<FormulaForm, Usage>
    ensures ok { IfOk result
        (λ form. HasFormulaForm (map string_bytes words.now) form.grid form.level form.size form.version) }
    ensures usage { OnErr result ((grid : GridName) (level size : ℕ) (version : FormulaVersion)
        → ¬ HasFormulaForm (map string_bytes words.now) grid level size version) }
{
    let [grid, level, options @ ..] = words else {
        return Err(Usage);
    };
    let grid = grid_named(grid.as_str())?;
    let level = number(level.as_str(), 1, MOST_LEVELS)? as u32;
    let options = Options::read(options)?;
    let limits = options.size_and_version_alone()?;
    if !has_grid(limits.version, grid) {
        return Err(Usage);
    }
    Ok(FormulaForm {
        grid,
        level,
        size: limits.size,
        version: limits.version,
    })
}
