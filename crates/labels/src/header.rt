use fields::Owner;
use terms::Service;

/// What HDR1 says.
#[derive(Clone, Copy)]
pub struct Hdr1 {
    pub creation: u32,
    pub expiry: u32,
    /// What stands in the free places, which EOF1 repeats.
    pub free: Hdr1Free,
}

/// The contents of the free places of HDR1.
#[derive(Clone, Copy)]
pub struct Hdr1Free {
    pub user: [u8; 6],
    pub version: [u8; 1],
    pub user_again: [u8; 6],
    pub spare4: [u8; 4],
    pub spare2: [u8; 2],
    pub access: [u8; 1],
}

/// What VOL1 fixes for HDR1.
#[derive(Clone, Copy)]
pub struct Hdr1Context {
    pub owner: Owner,
    pub serial: [u8; 6],
}

/// What HDR2 says: whether the file is multi-day, by the length of its records.
#[derive(Clone, Copy)]
pub struct Hdr2 {
    // A yes or no with no value beside it: an enum of the two would be compared with one of them wherever this is asked.
    pub multi: bool,
}

#[derive(Clone, Copy)]
pub struct Hdr2Context {
    pub service: Service,
}
