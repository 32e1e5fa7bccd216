use fields::Owner;
use records::Originator;
use terms::Service;

/// What a file says beside its payments. Dates are day numbers.
#[derive(Clone, Copy)]
pub struct Heading {
    pub service: Service,
    pub owner: Owner,
    /// Six characters: spaces, then capitals and digits.
    pub serial: [u8; 6],
    pub creation: u32,
    pub expiry: u32,
    pub processing: u32,
    /// Whether the file is multi-day.
    pub multi: bool,
    /// The file number, from 0 to 999.
    pub number: u32,
    /// Whose account the payments are set against: sort code, account and name.
    pub originator: Originator,
    /// The text that stands in every contra.
    pub narrative: [u8; 18],
}
