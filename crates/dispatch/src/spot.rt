// What the cores run in a tick.
ghost use Rattle.std.specs.Prelude.{◌≡◌, ◌≤◌, length};
ghost use Rattle.dispatch.specs.Spots.{number, told, Written};

// A node of the open job in a slot.
#[derive(Clone, Copy, Debug, PartialEq, Eq, Drop)]
pub struct Spot {
    pub slot: u8,
    pub node: u8,
}

// What each core runs; none where it is idle.
pub type Spots = [Option<Spot>; 16];

// What each core runs, and how many are busy.
#[derive(Clone, Copy, Debug, PartialEq, Eq, Drop)]
pub struct Placing {
    pub spots: Spots,
    pub busy: u8,
}

// What a core list has for an idle core.
const IDLE: u16 = 65_535;

impl Spot {
    // What a core list has for the node.
    pub fn number(self) -> u16
        ensures { result ≡ number self }
    {
        256 * u16::from(self.slot) + u16::from(self.node)
    }
}

// What a core list has for what a core runs.
fn told(spot: Option<Spot>) -> u16
    ensures { result ≡ told spot }
{
    spot.map_or(IDLE, Spot::number)
}

// Writes what each of the cores runs; entries beyond the cores stay.
pub fn write_spots(spots: &Spots, cores: u8, list: &mut [u16])
    requires { (cores ≤ 16) × (cores ≤ length list.old) }
    ensures { Written spots.now cores list.old list.new }
{
    // in place, and by index: the library's `map` of an array first moves all 16 into options
    for core in 0..usize::from(cores) {
        list[core] = told(spots[core]);
    }
}
