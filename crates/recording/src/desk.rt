// The desk: it takes the bytes of a recording in pieces and gives its lines, one at a time. Document 02, Ticket 1; what the lines are is
// specs/Recording, and specs/Views says which desk a struct is. Assumes nothing at the calls; the functions below them take records that
// are there whole.
ghost use Rattle.std.specs.Prelude.{◌≡◌, ℕ, ◌+◌, ◌<◌, ◌≤◌, min, false, List, length, take};
ghost use Rattle.rules.specs.Calls.{judged as judged_of};
ghost use Rattle.recording.specs.Recording.{record_bytes_of, kind_of, entry_length, used_length, faulty as faulty_of};
ghost use Rattle.recording.specs.Recording.{stopped, entered, at_opening_of, opened_by_lem, open_outcome_of, desk_tables, arrival_from};
ghost use Rattle.recording.specs.Recording.{judged_on};
ghost use Rattle.recording.specs.Recording.{with_held, settled, looked};
ghost use Rattle.recording.specs.Views.{held_count, Given, record_part, Fresh, Advanced, Ended};
ghost use Rattle.recording.specs.Held.{Holds};
ghost use Rattle.recording.specs.Live.{enough};

use crate::form::{RECORD_BYTES, faulty, record_bytes};
use crate::line::{Line, verdict_line};
use crate::opening::{check_opening, open_state};
use rules::{Judged, LentArrival, State};
use tables::LentTables;

// How many bytes a buffer for the table must have: what 64 entries can have, and one more, by which a 65th is seen to begin. What a
// longer buffer would hold besides changes no line.
pub const TABLE_BYTES: usize = 64 * 129 + 1;

// How far a recording has been read. Stage 0 is before the opening, 1 behind it, any other stopped. The first `table_length` bytes of a
// lent buffer are the table, the first `held` ones of `begun` those of the record that is begun, and what stands behind them means
// nothing.
// Kept (may not change): stage is a number and no enum, since each value of the struct is a desk: Desk::advance and finish ask nothing.
// Kept (project rule): no heap, so the table and the record that is begun stand in fixed buffers beside their lengths.
#[derive(Clone, Copy)]
pub struct Desk {
    pub stage: u8,
    pub held: usize,
    pub table_length: usize,
    pub records: u64,
    pub segments: u64,
    pub state: State,
    pub begun: [u8; RECORD_BYTES],
}

// What a call gives: the desk behind the bytes that were taken, how many they are, and the line to print.
#[derive(Clone, Copy)]
pub struct Step {
    pub desk: Desk,
    pub took: usize,
    pub line: Line,
}

#[derive(Clone, Copy)]
struct Told {
    desk: Desk,
    line: Line,
}

// The live call: the segment comes from the remote side of the state's pair. The only place that judges.
fn judge_on(table: &[u8], segment: &[u8], state: State) -> Judged
    ensures { result ≡ judged_of (desk_tables table.now) (arrival_from state segment.now) state }
{
    let pair = state.conn.pair;
    let w = keys::entry::width_of(pair.family);
    let arrival = LentArrival {
        source: &pair.remote[..w],
        destination: &pair.local[..w],
        segment,
    };
    tcpao::judge::judge(&LentTables::of_bytes(table, &[]), &arrival, state)
}

impl Desk {
    pub fn new() -> Self
        ensures fresh { Fresh result }
        ensures room { TABLE_BYTES ≡ enough }
    {
        Desk {
            stage: 0,
            held: 0,
            table_length: 0,
            records: 0,
            segments: 0,
            state: states::writers::empty(),
            begun: [0; RECORD_BYTES],
        }
    }

    // How many bytes of a buffer of this length are the table.
    fn table_bytes(self, room: usize) -> usize
        ensures { result ≡ min self.table_length room }
    {
        self.table_length.min(room)
    }

    // "stops it with a last line"
    fn stop(self, line: Line) -> Told
        ensures { (table : List ℕ) → Given self table (stopped line) result.desk result.line table }
    {
        let desk = Desk {
            stage: 2,
            held: 0,
            ..self
        };
        Told { desk, line }
    }

    // "All entries, joined in order, make the table": as much of it as the buffer holds.
    fn enter(self, table: &mut [u8], bytes: &[u8]) -> Told
        requires { 2 + entry_length bytes.now ≤ length bytes.now }
        ensures { Given self table.old
            (λ d. entered (take (length table.old)) (with_held bytes.now d))
            result.desk result.line table.new }
    {
        let at = self.table_bytes(table.len());
        let n = (bytes[1] as usize).min(table.len() - at);
        octets::copy_at(table, at, &bytes[2..2 + n]);
        let desk = Desk {
            held: 0,
            table_length: at + n,
            records: self.records.wrapping_add(1),
            ..self
        };
        Told {
            desk,
            line: Line::Nothing,
        }
    }

    // "the connection just after opening"
    fn at_opening(self, state: State) -> Told
        ensures { (table : List ℕ) → Given self table (λ d. at_opening_of d state) result.desk result.line table }
    {
        let desk = Desk {
            stage: 1,
            held: 0,
            records: self.records.wrapping_add(1),
            state,
            ..self
        };
        Told {
            desk,
            line: Line::Nothing,
        }
    }

    fn open(self, table: &[u8], bytes: &[u8]) -> Told
        requires { 48 ≤ length bytes.now }
        ensures { Given self table.now
            (λ d. opened_by_lem (with_held bytes.now d) (open_outcome_of d.table bytes.now))
            result.desk result.line table.now }
    {
        let n = self.table_bytes(table.len());
        match check_opening(&table[..n], bytes) {
            Ok(()) => self.at_opening(open_state(bytes)),
            Err(refusal) => self.stop(Line::Refused(refusal.number)),
        }
    }

    // "What it prints must be what the live calls would give".
    fn answer(self, table: &[u8], bytes: &[u8]) -> Told
        requires { 3 + used_length bytes.now ≤ length bytes.now }
        ensures { Given self table.now (λ d. judged_on (with_held bytes.now d))
            result.desk result.line table.now }
    {
        let n = self.table_bytes(table.len());
        let end = 3 + octets::load16(bytes, 1) as usize;
        let judged = judge_on(&table[..n], &bytes[3..end], self.state);
        let desk = Desk {
            held: 0,
            records: self.records.wrapping_add(1),
            segments: self.segments.wrapping_add(1),
            state: judged.state,
            ..self
        };
        Told {
            desk,
            line: verdict_line(self.segments, judged.verdict),
        }
    }

    // A record that is whole and has no fault.
    fn settle(self, table: &mut [u8], bytes: &[u8]) -> Told
        requires { (faulty_of self.stage bytes.now ≡ false) × (length bytes.now ≡ record_bytes_of (kind_of bytes.now)) }
        ensures { Given self table.old
            (λ d. settled (take (length table.old)) (with_held bytes.now d))
            result.desk result.line table.new }
    {
        match bytes[0] {
            1 => self.enter(table, bytes),
            2 => self.open(table, bytes),
            _ => self.answer(table, bytes),
        }
    }

    // Nothing changes, and nothing is printed.
    fn idle(self, took: usize) -> Step
        ensures { result ≡ record { desk = self; took = took; line = Line.Nothing } }
    {
        Step {
            desk: self,
            took,
            line: Line::Nothing,
        }
    }

    // The record that is begun, of which n bytes are there now.
    fn look(self, n: usize, table: &mut [u8]) -> Told
        requires { (0 < n) × (n ≤ record_bytes_of (kind_of self.begun)) }
        ensures { Given self table.old
            (λ d. looked (take (length table.old)) (with_held (take n self.begun) d))
            result.desk result.line table.new }
    {
        let begun = &self.begun[..n];
        if faulty(self.stage, begun) {
            return self.stop(Line::Fault(self.records));
        }
        if n < record_bytes(self.begun[0]) {
            return Told {
                desk: Desk { held: n, ..self },
                line: Line::Nothing,
            };
        }
        self.settle(table, begun)
    }

    // How many bytes of the record that is begun are there: fewer than it has.
    fn held_bytes(self) -> usize
        ensures { (result ≡ held_count self) × (result < record_bytes_of (kind_of self.begun)) × (result < 1601) }
    {
        self.held % record_bytes(self.begun[0])
    }

    // Of these bytes those up to the end of the record that is begun, or that they begin.
    fn to_take(self, data: &[u8]) -> usize
        requires { 0 < length «data».now }
        ensures { (result ≡ record_part (take (held_count self) self.begun) «data».now)
            × (0 < result) × (held_count self + result ≤ 1601) }
    {
        let held = self.held_bytes();
        if held == 0 {
            return record_bytes(data[0]).min(data.len());
        }
        (record_bytes(self.begun[0]) - held).min(data.len())
    }

    // These bytes behind those that are held.
    fn hold(self, data: &[u8]) -> Desk
        requires { held_count self + length «data».now ≤ 1601 }
        ensures { Holds self «data».now result }
    {
        let mut begun = self.begun;
        octets::copy_at(&mut begun, self.held_bytes(), data);
        Desk { begun, ..self }
    }

    // Takes bytes up to the end of a record, or all that there are, and gives the line to print, if there is one. A desk that has
    // stopped takes all.
    pub fn advance(self, table: &mut [u8], data: &[u8]) -> Step
        ensures { Advanced self table.old «data».now result table.new }
    {
        if self.stage > 1 {
            return self.idle(data.len());
        }
        if data.is_empty() {
            return self.idle(0);
        }
        let took = self.to_take(data);
        let n = self.held_bytes() + took;
        let told = self.hold(&data[..took]).look(n, table);
        Step {
            desk: told.desk,
            took,
            line: told.line,
        }
    }

    // What stands at the end of the recording.
    pub fn finish(self) -> Line
        ensures { Ended self result }
    {
        match self.stage {
            0 => Line::Fault(self.records),
            1 => {
                if self.held_bytes() == 0 {
                    Line::Nothing
                } else {
                    Line::Fault(self.records)
                }
            }
            _ => Line::Nothing,
        }
    }
}
