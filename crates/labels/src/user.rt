use terms::Service;

/// What UHL1 says.
#[derive(Clone, Copy)]
pub struct Uhl1 {
    pub processing: u32,
    /// The file number, from 0 to 999.
    pub number: u32,
}

/// What UHL1 is judged by.
#[derive(Clone, Copy)]
pub struct Uhl1Context {
    pub service: Service,
    pub opening: u32,
    pub creation: u32,
    pub expiry: u32,
    pub multi: bool,
    /// Whether the calendar opens the day that stands at 5-10, if one stands there: whoever reads the line looks it up.
    // The answer and no day with it: the day stands in the line, which is judged after this is made.
    pub open: bool,
}
