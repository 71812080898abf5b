// The two runs: signing, asking, judging. Assumes nothing.
use crate::script::{Event, FIRST_RUN, Kind, SECOND_RUN, Side, sender};
use crate::segments::{SIGNED, Sent, forged, unsigned};
use crate::{calls, rows};
use rules::{Judged, State, Verdict};
use std::io::Print;

#[derive(Clone, Copy)]
pub struct Ends {
    pub client: State,
    pub server: State,
}

impl Ends {
    fn state(&self, side: Side) -> State {
        match side {
            Side::Client => self.client,
            Side::Server => self.server,
        }
    }

    fn set(&mut self, side: Side, state: State) {
        match side {
            Side::Client => self.client = state,
            Side::Server => self.server = state,
        }
    }

    // Numbers rise as they are signed, so the reference of the direction signed is the position of the segment signed last.
    fn sign(&mut self, no: u8) -> Sent {
        let side = sender(no);
        let before = self.state(side);
        let mut bytes = [0; SIGNED];
        let state = calls::sign(side, &unsigned(before, no), &mut bytes, before);
        self.set(side, state);
        Sent {
            bytes,
            place: Some(state.sent),
        }
    }
}

// The segments on the way, by number; place 0 stays empty.
pub type Way = [Option<Sent>; 17];

// The ends, and what each segment got that has arrived, by number.
#[derive(Drop)]
pub struct Run {
    pub ends: Ends,
    pub verdicts: [Option<Verdict>; 17],
}

impl Run {
    fn new(ends: Ends) -> Self {
        Run {
            ends,
            verdicts: [None; 17],
        }
    }

    // Judges one arrival, and keeps its verdict.
    fn arrive(&mut self, no: u8, sent: Sent) -> Judged {
        let side = sender(no).other();
        let judged = calls::judge(side, &sent.bytes, self.ends.state(side));
        self.ends.set(side, judged.state);
        if let Some(verdict) = self.verdicts.get_mut(no as usize) {
            *verdict = Some(judged.verdict);
        }
        judged
    }
}

fn on_the_way(way: &Way, no: u8) -> Option<Sent> {
    *way.get(no as usize)?
}

// Each arrival is printed.
pub fn first(rt: &impl Print, start: Ends) -> (Way, Run) {
    let mut run = Run::new(start);
    let mut way = [None; 17];
    let mut last = None;
    for event in FIRST_RUN {
        match event {
            Event::Send(no) => {
                last = if Kind::of(no) == Kind::Data {
                    Some(run.ends.sign(no))
                } else {
                    last.map(|before| forged(before, no))
                };
                if let Some(sent) = way.get_mut(no as usize) {
                    *sent = last;
                }
            }
            Event::Arrive(no) => {
                if let Some(sent) = on_the_way(&way, no) {
                    let judged = run.arrive(no, sent);
                    rows::arrival(rt, no, sent, judged);
                }
            }
            Event::Ask => {
                rows::asking(rt);
                run.ends.server = calls::ask(run.ends.server);
            }
        }
    }
    (way, run)
}

// Only arrivals: the segments are those of the first run.
pub fn second(way: &Way, start: Ends) -> Run {
    let mut run = Run::new(start);
    for no in SECOND_RUN {
        if let Some(sent) = on_the_way(way, no) {
            let _ = run.arrive(no, sent);
        }
    }
    run
}
