//! The text of a report's line, made in place: it takes no memory, whatever the values are.
ghost use Rattle.std.specs.Prelude.{◌≡◌, ◌≤◌, ◌+◌, ◌++◌, ◌∷◌, [], codes, length};
ghost use Rattle.arrayvec.specs.ArrayString.{array_string_len};
ghost use Rattle.sk_run.specs.Text.{hex, number_in, status_text, judgement_text, outcome_text, effect_text, happening_text, end_text, turn_text};
ghost use Rattle.sk_run.specs.Report.{line};
ghost use Rattle.sk_run.specs.declared.turn.ReportLine.TheVariants as told;

use crate::calls::push_call;
use crate::{End, ReportLine};
use sk_insn::Action;
use sk_machine::{Answer, Effect, Event, Outcome};
use sk_text::{Line, push_digit, push_long, push_number, push_signed};

/// The verdict of no filter, and of filters that allow a call.
const ALLOW: u32 = 0x7fff_0000;

/// The line of a turn, with its line feed.
pub fn turn_line(turn: &ReportLine) -> Line
    ensures text { result.bytes ≡ line turn.now }
{
    let mut text = Line::new();
    write_line(&mut text, turn);
    text
}

/// The same, in the place of what was written there.
#[inline(always)]
pub fn write_line(text: &mut Line, turn: &ReportLine)
    ensures text { text.new.bytes ≡ line turn.now }
{
    match turn {
        ReportLine::Turn {
            turn,
            event,
            answer,
        } => write_happening(text, *turn, event, answer),
        ReportLine::End(end) => write_end(text, *end),
    }
}

// The line of a turn with this number, event and answer, in the place of what was written there.
#[tactic(auto, unfolding(crate::specs::Text::turn_text))]
fn write_happening(text: &mut Line, turn: u32, event: &Event, answer: &Answer)
    ensures text { text.new.bytes ≡ line (told.Turn turn event.now answer.now) }
{
    text.clear();
    push_number(text, turn);
    text.push_str(" ");
    push_number(text, event.pid());
    text.push_str(" ");
    push_happening(text, event, answer);
    end_line(text);
}

// The line of the end, in the place of what was written there.
#[tactic(auto, unfolding(crate::specs::Text::turn_text))]
fn write_end(text: &mut Line, end: End)
    ensures text { text.new.bytes ≡ line (told.End end) }
{
    text.clear();
    text.push_str("end ");
    push_end(text, end);
    end_line(text);
}

fn end_line(text: &mut Line)
    requires room { array_string_len text.old + 1 ≤ 128 }
    ensures text { text.new.bytes ≡ text.old.bytes ++ 10 ∷ [] }
{
    text.push_str("\n");
}

#[tactic(auto, unfolding(crate::specs::Text::end_text))]
fn push_end(text: &mut Line, end: End)
    requires room { array_string_len text.old + 16 ≤ 128 }
    ensures text { text.new.bytes ≡ text.old.bytes ++ end_text end }
    ensures growth { array_string_len text.new ≤ array_string_len text.old + 16 }
{
    match end {
        End::Halt(status) => {
            text.push_str("halt ");
            push_status(text, status);
        }
        End::Idle => text.push_str("idle"),
        End::Limit => text.push_str("limit"),
    }
}

#[tactic(auto, unfolding(crate::specs::Text::happening_text))]
fn push_happening(text: &mut Line, event: &Event, answer: &Answer)
    requires room { array_string_len text.old + 95 ≤ 128 }
    ensures text { text.new.bytes ≡ text.old.bytes ++ happening_text event.now answer.now }
    ensures growth { array_string_len text.new ≤ array_string_len text.old + 95 }
{
    match *answer {
        Answer::Call { verdict, outcome } => {
            push_call(text, number(event));
            push_judgement(text, verdict);
            push_outcome(text, outcome);
        }
        Answer::Signal { signal, effect } => {
            text.push_str("signal ");
            push_number(text, u32::from(signal));
            text.push_str(" ");
            push_effect(text, effect);
        }
        Answer::Resumed(outcome) => {
            text.push_str("resume ");
            push_outcome(text, outcome);
        }
        Answer::Crashed => text.push_str("crash"),
        Answer::NotNow(_) => {}
    }
}

// The number of the call that an event is; no other event is a call.
fn number(event: &Event) -> u32
    ensures { result ≡ number_in event.now }
{
    match *event {
        Event::Call { call, .. } => call.nr,
        _ => 0,
    }
}

// The verdict and a space. Most calls have no filter, or one that allows them.
#[tactic(auto, unfolding(crate::specs::Text::judgement_text))]
fn push_judgement(text: &mut Line, verdict: u32)
    requires room { array_string_len text.old + 26 ≤ 128 }
    ensures text { text.new.bytes ≡ text.old.bytes ++ (judgement_text verdict ++ codes " ") }
    ensures growth { array_string_len text.new ≤ array_string_len text.old + 26 }
{
    if verdict == ALLOW {
        text.push_str("allow/0 ");
    } else {
        push_action_data(text, verdict);
        text.push_str(" ");
    }
}

#[tactic(auto, unfolding(crate::specs::Text::judgement_text))]
fn push_action_data(text: &mut Line, verdict: u32)
    requires room { array_string_len text.old + 25 ≤ 128 }
    ensures text { text.new.bytes ≡ text.old.bytes ++ judgement_text verdict }
    ensures growth { array_string_len text.new ≤ array_string_len text.old + 25 }
{
    push_word(text, Action::of(verdict).name());
    text.push_str("/");
    push_number(text, verdict % 0x1_0000);
}

#[tactic(auto, unfolding(crate::specs::Text::outcome_text))]
#[inline(always)]
fn push_outcome(text: &mut Line, outcome: Outcome)
    requires room { array_string_len text.old + 36 ≤ 128 }
    ensures text { text.new.bytes ≡ text.old.bytes ++ outcome_text outcome }
    ensures growth { array_string_len text.new ≤ array_string_len text.old + 36 }
{
    match outcome {
        Outcome::Returned(value) => push_signed(text, value),
        Outcome::Told { pid, status } => {
            text.push_str("told ");
            push_number(text, pid);
            text.push_str(" ");
            push_status(text, status);
        }
        Outcome::Ids(real, effective, saved) => {
            text.push_str("ids ");
            push_number(text, real);
            text.push_str(" ");
            push_number(text, effective);
            text.push_str(" ");
            push_number(text, saved);
        }
        Outcome::Signals(set) => {
            text.push_str("set 0x");
            push_hex(text, set.bits(), 8);
        }
        Outcome::Waits => text.push_str("waits"),
        Outcome::Trapped => text.push_str("trapped"),
        Outcome::Ended(status) => {
            text.push_str("ended ");
            push_status(text, status);
        }
        Outcome::Executed => text.push_str("executed"),
    }
}

#[tactic(auto, unfolding(crate::specs::Text::effect_text))]
fn push_effect(text: &mut Line, effect: Effect)
    requires room { array_string_len text.old + 36 ≤ 128 }
    ensures text { text.new.bytes ≡ text.old.bytes ++ effect_text effect }
    ensures growth { array_string_len text.new ≤ array_string_len text.old + 36 }
{
    match effect {
        Effect::Ignored => text.push_str("ignored"),
        Effect::Stopped => text.push_str("stops"),
        Effect::Ended(status) => {
            text.push_str("ended ");
            push_status(text, status);
        }
        Effect::Handler {
            program,
            interrupted,
        } => {
            text.push_str("handler ");
            push_long(text, program);
            if interrupted {
                text.push_str(" eintr");
            }
        }
    }
}

// A word of the tables, none of which is long.
fn push_word(text: &mut Line, word: &str)
    requires short { length word.now ≤ 14 }
    requires room { array_string_len text.old + 14 ≤ 128 }
    ensures text { text.new.bytes ≡ text.old.bytes ++ word.now }
    ensures growth { array_string_len text.new ≤ array_string_len text.old + 14 }
{
    text.push_str(word);
}

fn push_status(text: &mut Line, status: u32)
    requires room { array_string_len text.old + 6 ≤ 128 }
    ensures text { text.new.bytes ≡ text.old.bytes ++ status_text status }
    ensures growth { array_string_len text.new ≤ array_string_len text.old + 6 }
{
    text.push_str("0x");
    push_hex(text, status, 4);
}

// The last so many hexadecimal digits.
#[tactic(auto, unfolding(crate::specs::Text::hex))]
fn push_hex(text: &mut Line, number: u32, width: u8)
    requires room { array_string_len text.old + width ≤ 128 }
    ensures text { text.new.bytes ≡ text.old.bytes ++ hex width number }
    ensures growth { array_string_len text.new ≤ array_string_len text.old + width }
{
    if width > 0 {
        push_hex(text, number / 16, width - 1);
        push_digit(text, (number % 16) as u8);
    }
}
