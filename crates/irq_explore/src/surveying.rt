//! The surveys of a board's lines.
ghost use Rattle.std.specs.Prelude.{◌≡◌, IfOk, OnOk, All};
ghost use Rattle.board_def.specs.Layout.{layout_of};
ghost use Rattle.explore_words.specs.Words.{IsCount};
ghost use Rattle.irq_explore.specs.Surveyed.{AreSurveys, HasRows, IsSurveyOf};
ghost use Rattle.irq_explore.specs.Surveying.{AddsSurvey, is_surveyed};
ghost use Rattle.irq_model.specs.Valid.{IsValid};
ghost use Rattle.irq_model.specs.ValidRuns.{HasValidRuns};

use board_def::{Board, Layout};
use domain_rules::Placement;
use irq_base::{LineDef, LineNo, NoMemory};
use line_survey::{LineSearch, Survey};
use std::alloc::Global;

/// A line's survey.
#[derive(Drop)]
pub struct LineSurvey {
    /// The line.
    pub line: LineNo,
    /// All that can come on it.
    pub survey: Survey,
}

/// Surveys the line through at most `states` of its states. The only error is `NoMemory`.
fn survey_line(alloc: Global, def: &LineDef, states: u32) -> Result<LineSurvey, NoMemory>
    requires valid { IsValid def.now }
    requires runs { HasValidRuns def.now }
    requires states { IsCount states }
    ensures survey { IfOk result (IsSurveyOf states def.now) }
    ensures rows { IfOk result HasRows }
{
    let search = LineSearch::new(alloc, def, states as usize)?;
    let survey = search.survey()?;
    Ok(LineSurvey {
        line: def.line,
        survey,
    })
}

/// Whether the line takes part with this placement and is asked for.
fn is_surveyed(asked: Option<LineNo>, def: &LineDef, placement: Option<Placement>) -> bool
    ensures { result ≡ is_surveyed asked def.now placement }
{
    if !matches!(placement, Some(Placement::Mapped { .. })) {
        return false;
    }
    match asked {
        Some(line) => def.line == line,
        None => true,
    }
}

/// Surveys the line, if it takes part with this placement and is asked for, and adds its survey.
/// The only error is `NoMemory`.
fn survey_next(
    alloc: Global,
    asked: Option<LineNo>,
    def: &LineDef,
    placement: Option<Placement>,
    states: u32,
    surveys: &mut Vec<LineSurvey>,
) -> Result<(), NoMemory>
    requires valid { IsValid def.now }
    requires runs { HasValidRuns def.now }
    requires states { IsCount states }
    ensures { OnOk result (AddsSurvey states def.now (is_surveyed asked def.now placement)
        surveys.old.items surveys.new.items) }
{
    if !is_surveyed(asked, def, placement) {
        return Ok(());
    }
    let survey = survey_line(alloc, def, states)?;
    surveys.push(survey)?;
    Ok(())
}

/// Surveys the board's lines that take part and are asked for, each line through at most `states`
/// of its states. The only error is `NoMemory`.
pub(crate) fn survey_lines(
    alloc: Global,
    board: &Board,
    layout: &Layout,
    asked: Option<LineNo>,
    states: u32,
) -> Result<Vec<LineSurvey>, NoMemory>
    requires layout { layout.now ≡ layout_of board.now }
    requires states { IsCount states }
    ensures surveys { IfOk result (λ surveys. AreSurveys board.now states asked surveys.items) }
    ensures rows { IfOk result (λ surveys. All HasRows surveys.items) }
{
    let defs = board.line_defs(alloc)?;
    let mut surveys = Vec::new(alloc);
    for i in 0..defs.len() {
        survey_next(alloc, asked, &defs[i], layout.get(i), states, &mut surveys)?;
    }
    Ok(surveys)
}
