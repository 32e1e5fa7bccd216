use fields::Owner;

/// What VOL1 says.
#[derive(Clone, Copy)]
pub struct Vol1 {
    pub owner: Owner,
    pub serial: [u8; 6],
}
