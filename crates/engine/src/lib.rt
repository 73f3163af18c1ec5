// One router's step: what arrives is dropped by its number, or answered by the Request sent on or the Reply sent home.
#![tactic(auto)]

ghost use Rattle.std.specs.Prelude.{◌≡◌, length, Ok};
ghost use Rattle.format.specs.Sizes.{Sound, ipv4};
ghost use Rattle.recent.specs.Inside.{Formed};
ghost use Rattle.sheet.specs.Sheet.{told_of};
ghost use Rattle.written.specs.Inside.{Writes};
ghost use Rattle.rows.specs.Rows.{first_of};
ghost use Rattle.drops.specs.Inside.{arrived, lent_rows, verdict_by};
ghost use Rattle.sending.specs.Answer.{number_of};
ghost use Rattle.engine.specs.Inside.{Ready, answered};
ghost use Rattle.engine.specs.Step.{outcome, answer_of, recent_after, StepMeets};

use drops::{Arrival, Judged};
use format::Format;
use header::Header;
use refusal::Refusal;
use sending::Answer;
use sheet::Layout;

// An accepted Query is entered in the recent list.
#[tactic(auto, using(crate::proofs::Entering::query_entered, crate::proofs::Entering::request_kept))]
fn write_recent(h: Header, recent: &mut [u8])
    requires { Formed recent.old }
    ensures { recent.new ≡ recent_after h recent.old }
{
    if h.is_query() {
        recent::enter(recent, h.client, h.id);
    }
}

// Answers a message that was accepted, and enters a Query.
fn answer(
    f: Format,
    a: Arrival,
    time: u32,
    j: Judged,
    sheet: &[u8],
    recent: &mut [u8],
    output: &mut [u8],
    note: &mut [u8],
) -> Answer
    requires sound { Sound f }
    requires writes { Writes f }
    requires ready { Ready f a.message.now a.receiving (verdict_by (Ok j)) sheet.now recent.old (length output.old) (length note.old) }
    ensures { outcome (number_of result) recent.new output.new note.new
        ≡ answered f a.entry.message.now a.entry.receiving time (verdict_by (Ok j)) sheet.now recent.old output.old note.old }
{
    let Judged { header, blocks, .. } = j;
    write_recent(header, recent);
    let view = view::view_with(f, sheet, j, a.receiving, time);
    if message::is_full(f, view::link_mtu(view.incoming, view.here), a.message.len()) {
        return sending::send_full(f, a.message, header, blocks.last, view.here, output, note);
    }
    sending::send_longer(f, a.message, header, blocks.count, view, output, note)
}

// One router's step by the sizes of a format, where rows 1 and 2 do not apply: the first row from 3 on that applies, or the answer.
// `layout` is what the check told of the sheet.
#[tactic(auto, using(crate::proofs::Steps::step_dropped))]
fn step_by(
    f: Format,
    a: Arrival,
    time: u32,
    sheet: &[u8],
    layout: Option<Layout>,
    recent: &mut [u8],
    output: &mut [u8],
    note: &mut [u8],
) -> Result<Answer, Refusal>
    requires sound { Sound f }
    requires writes { Writes f }
    requires layout_value { layout ≡ told_of f sheet.now }
    requires recent_value { first_of (lent_rows (length output.old) (length note.old) recent.old) ≡ 0 }
    ensures { StepMeets f (arrived a.entry) time sheet.now recent.old output.old note.old
        (outcome (answer_of result) recent.new output.new note.new) }
{
    let j = drops::judge(f, a, sheet, layout, recent)?;
    Ok(answer(f, a, time, j, sheet, recent, output, note))
}

// The same for IPv4. It is the one caller of the step by sizes, so that the compiler computes with the numbers themselves.
#[tactic(auto, using(written::proofs::Laws::ipv4_writes))]
pub fn step_lent(
    a: Arrival,
    time: u32,
    sheet: &[u8],
    recent: &mut [u8],
    output: &mut [u8],
    note: &mut [u8],
) -> Result<Answer, Refusal>
    requires { first_of (lent_rows (length output.old) (length note.old) recent.old) ≡ 0 }
    ensures { StepMeets ipv4 (arrived a.entry) time sheet.now recent.old output.old note.old
        (outcome (answer_of result) recent.new output.new note.new) }
{
    let layout = sheet::check(sheet);
    step_by(format::IPV4, a, time, sheet, layout, recent, output, note)
}

// One router's step. A message is dropped by the first row of the drop table that applies, and nothing lent is changed; or it is
// answered by a Request sent on or a Reply, with the message in `output` and its record in `note`. A caller lends the three apart, so they
// are no struct.
#[tactic(auto, using(crate::proofs::Steps::step_refused, format::specs::Sizes::ipv4_sound))]
pub fn step(
    a: Arrival,
    time: u32,
    sheet: &[u8],
    recent: &mut [u8],
    output: &mut [u8],
    note: &mut [u8],
) -> Result<Answer, Refusal>
    ensures { StepMeets ipv4 (arrived a.entry) time sheet.now recent.old output.old note.old
        (outcome (answer_of result) recent.new output.new note.new) }
{
    drops::lent_row(output.len(), note.len(), recent)?;
    step_lent(a, time, sheet, recent, output, note)
}
