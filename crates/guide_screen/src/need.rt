// What a receiver needs, and what it shows.
use guide_model::Screen;
use si_base::Items;

/// A table that a receiver needs before it can show a guide and that it has not heard whole yet: the PAT, the NIT, the SDT, the time
/// of day (TDT), the PMT of a program on its PID (PID, program_number), the present and following events of a service, or a table of
/// its schedule (service_id, table_id) (ISO/IEC 13818-1, 2.4.4; EN 300 468, 5.1.3 and 5.2).
#[derive(Clone, Copy, PartialEq, Eq)]
pub enum Need {
    Pat,
    Nit,
    Sdt,
    Clock,
    Pmt(u16, u16),
    Present(u16),
    Schedule(u16, u8),
}

/// Needs in the order in which they are told.
pub type Needs = Items<Need>;

/// What a receiver has to show: the whole screen, or the needs that are not met.
#[derive(Drop)]
pub enum Heard {
    Whole(Screen),
    Wanting(Needs),
}
