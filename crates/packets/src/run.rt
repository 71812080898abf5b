// What is carried from line to line: the states of both ends, and the count. Assumes nothing.
use columns::report::Tally;
use rules::State;

#[derive(Clone, Copy)]
pub struct Run {
    pub client: State,
    pub server: State,
    pub tally: Tally,
}

impl Run {
    pub fn count(&mut self, ok: bool) {
        self.tally = self.tally.counted(ok);
    }
}
