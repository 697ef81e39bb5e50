//! The verdicts that `--only` looks for, and the rows that have one.
ghost use Rattle.std.specs.Prelude.{◌≡◌};
ghost use Rattle.std.specs.List.{list_any};
ghost use Rattle.sk_policy_text.specs.Verdicts.{action_in};
ghost use Rattle.sk_survey.specs.Answers.{answers_of};
ghost use Rattle.sk_insn.specs.Actions.{action_part, has_value};
ghost use Rattle.sk_ask.specs.Only.{end_has_sought, have_sought, is_any_sought, is_sought, line_has_sought, lines_sought, row_has_sought, rows_sought, sought_named};

use sk_insn::Action;
use sk_policy_text::action_value;
use sk_show::Line;
use sk_survey::Answers;
use sk_text::cut;
use sk_when::ConditionalRow;

/// The verdicts that are looked for.
#[derive(Clone, Copy, Debug)]
pub enum Sought {
    /// Those of an action, whatever their data are.
    Of(Action),
    /// One, by its value.
    Value(u32),
}

impl Sought {
    /// Those that a word means.
    pub fn named(word: &[u8]) -> Option<Sought>
        ensures sought { result ≡ sought_named word.now }
    {
        if word.contains(&b'/') {
            let value = action_value(word)?;
            Some(Sought::Value(value))
        } else {
            let action = action_in(word)?;
            Some(Sought::Of(action))
        }
    }
}

fn action_in(word: &[u8]) -> Option<Action>
    ensures action { result ≡ action_in word.now }
{
    let (name, _given) = cut(word, b'/');
    Action::named(name)
}

/// The lines whose verdicts have one that is looked for; all, where nothing is.
pub fn lines_sought(only: &[Sought], lines: Vec<Line>) -> Vec<Line>
    ensures kept { result.items ≡ lines_sought only.now lines.items }
{
    let mut lines = lines;
    if !only.is_empty() {
        lines.retain(|line| line_has_sought(only, line));
    }
    lines
}

/// The rows of which a line, or `else`, has a verdict that is looked for; all, where nothing is.
pub fn rows_sought(only: &[Sought], rows: Vec<ConditionalRow>) -> Vec<ConditionalRow>
    ensures kept { result.items ≡ rows_sought only.now rows.items }
{
    let mut rows = rows;
    if !only.is_empty() {
        rows.retain(|row| row_has_sought(only, row));
    }
    rows
}

fn line_has_sought(only: &[Sought], line: &Line) -> bool
    ensures sought { result ≡ line_has_sought only.now line.now }
{
    have_sought(only, &line.row.answers)
}

fn row_has_sought(only: &[Sought], it: &ConditionalRow) -> bool
    ensures sought { result ≡ row_has_sought only.now it.now }
{
    end_has_sought(only, &it.row.answers, it.otherwise)
        || has_line(only, &it.row.answers, &it.lines)
}

fn has_line(only: &[Sought], answers: &Answers, lines: &[sk_terms::Line]) -> bool
    ensures sought { result ≡ list_any (λ line. end_has_sought only.now (answers_of answers.now) line.value) lines.now }
{
    lines
        .iter()
        .any(|line| end_has_sought(only, answers, line.value))
}

// Whether the verdict of a line is looked for, or where it has none of its own, one of the row's.
fn end_has_sought(only: &[Sought], answers: &Answers, value: Option<u32>) -> bool
    ensures sought { result ≡ end_has_sought only.now (answers_of answers.now) value }
{
    match value {
        Some(value) => is_any_sought(only, value),
        None => have_sought(only, answers),
    }
}

fn have_sought(only: &[Sought], answers: &Answers) -> bool
    ensures sought { result ≡ have_sought only.now (answers_of answers.now) }
{
    match answers {
        Answers::Any => true,
        Answers::Among(values) => is_one_sought(only, values),
    }
}

fn is_one_sought(only: &[Sought], values: &[u32]) -> bool
    ensures sought { result ≡ list_any (is_any_sought only.now) values.now }
{
    values.iter().any(|value| is_any_sought(only, *value))
}

fn is_any_sought(only: &[Sought], value: u32) -> bool
    ensures sought { result ≡ is_any_sought only.now value }
{
    only.iter().any(|it| is_sought(value, *it))
}

fn is_sought(value: u32, it: Sought) -> bool
    ensures sought { result ≡ is_sought value it }
{
    match it {
        Sought::Of(action) => is_of(value, action.value()),
        Sought::Value(wanted) => value == wanted,
    }
}

// Whether the value asks for the action that has this one with data 0.
fn is_of(value: u32, action: Option<u32>) -> bool
    ensures of { result ≡ has_value (action_part value) action }
{
    match action {
        Some(action) => value - value % 0x1_0000 == action,
        None => false,
    }
}
