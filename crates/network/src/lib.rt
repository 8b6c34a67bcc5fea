// What a network is, and the records that its files are made of.
#![tactic(auto)]

pub mod refusal;

ghost use Rattle.std.specs.Prelude.{◌≡◌};
ghost use Rattle.network.specs.Networks.{empty_network};

// A network as its file states it: element i and link l of the file stand at index i and l, and later entries are 0. In
// guard 96 says that there is none: of a link without a guard, and in later entries. Fields stand in arrays of their own, forms
// and flags as numbers: `WellFormed` and `net_of`, on which the theorems rest, read them so.
#[derive(Clone, Copy)]
pub struct Network {
    pub load: [u32; 64],
    pub capacity: [u32; 64],
    pub flags: [u16; 64],
    pub from: [u16; 96],
    pub to: [u16; 96],
    pub form: [u16; 96],
    pub cost: [u16; 96],
    pub guard: [u16; 96],
    pub elements: usize,
    pub links: usize,
}

// An element: own load, capacity, flags (1 source, 2 faulty, 3 both).
#[derive(Clone, Copy)]
pub struct Element {
    pub load: u32,
    pub capacity: u32,
    pub flags: u16,
}

// A link: two elements, form (0 fixed, 1 open switch, 2 closed switch), cost, guard (96 for none).
#[derive(Clone, Copy)]
pub struct Link {
    pub from: u16,
    pub to: u16,
    pub form: u16,
    pub cost: u16,
    pub guard: u16,
}

impl Network {
    pub const MAX_ELEMENTS: usize = 64;

    pub const MAX_LINKS: usize = 96;

    pub const MAX_OPERABLE: usize = 12;

    pub const NO_GUARD: u16 = 96;

    pub fn empty() -> Network
        ensures { result ≡ empty_network }
    {
        Network {
            load: [0; 64],
            capacity: [0; 64],
            flags: [0; 64],
            from: [0; 96],
            to: [0; 96],
            form: [0; 96],
            cost: [0; 96],
            guard: [Network::NO_GUARD; 96],
            elements: 0,
            links: 0,
        }
    }
}
