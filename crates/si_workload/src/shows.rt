// The shows of a service.
ghost use Rattle.std.specs.Prelude.{◌≡◌, ◌≤◌, ◌<◌, ◌+◌};
ghost use Rattle.si_workload.specs.Shows.{drawn, show_at, state_behind};

/// A show: its event_id, its start and its length in quarters of an hour, counted from the first midnight, and the number in its name.
#[derive(Clone, Copy)]
pub struct Show {
    pub id: u64,
    pub start: u64,
    pub quarters: u64,
    pub title: u64,
}

// The next show of a service: its event_id, its start, and the state before its draws.
#[derive(Clone, Copy)]
pub(crate) struct NextShow {
    pub(crate) id: u64,
    pub(crate) start: u64,
    pub(crate) state: u64,
}

impl NextShow {
    // The next show, and from then on the one behind it.
    pub(crate) fn take(&mut self) -> Show
        requires id { self.old.id < 10000 }
        requires start { self.old.start < 10000 }
        ensures show { result ≡ show_at self.old.id self.old.start self.old.state }
        ensures id { self.new.id ≡ self.old.id + 1 }
        ensures start { self.new.start ≡ self.old.start + result.quarters }
        ensures state { self.new.state ≡ state_behind (state_behind self.old.state) }
        ensures some { 1 ≤ result.quarters }
        ensures most { result.quarters ≤ 8 }
        ensures title { result.title < 1000 }
    {
        let quarters = 1 + draw(&mut self.state) % 8;
        let title = draw(&mut self.state) % 1000;
        let show = Show {
            id: self.id,
            start: self.start,
            quarters,
            title,
        };
        self.id += 1;
        self.start += quarters;
        show
    }
}

// A draw of a linear congruential generator: the state goes on, and gives its upper bits.
fn draw(state: &mut u64) -> u64
    ensures state { state.new ≡ state_behind state.old }
    ensures number { result ≡ drawn (state_behind state.old) }
{
    let wide = u128::from(*state) * 6_364_136_223_846_793_005 + 1_442_695_040_888_963_407;
    *state = (wide % 18_446_744_073_709_551_616) as u64;
    *state / 8_589_934_592
}
