ghost use Rattle.std.specs.Prelude.{◌≡◌, [], length};
ghost use Rattle.std.specs.Result.{result_map_both};
ghost use Rattle.lines.specs.Places.{place_reading, stands};
ghost use Rattle.labels.specs.Volumes.OwnerSays.{marked, numbered};
ghost use Rattle.labels.specs.Volumes.{Vol1Says, has_sun, owner_says, places_of_mark, Vol1Fits, vol1_line, vol1_marked, vol1_place, vol1_says, vol1_sun, volume};
ghost use Rattle.labels.specs.VolumeLaws.{owner_unbroken, owner_back};
ghost use Rattle.std.proofs.Common.{rules};

use crate::{Vol1, owner_places};
use fields::Owner;
use lines::{FileFault, Line};
use places::{
    BlankOr, Field, Fixed, OwnerMark, Serial, SmallNumber, Spaces, part, put_bytes, put_spaces,
};

/// The kind of line that begins a file.
pub struct Vol1Label;

impl Line for Vol1Label {
    type Context = ();

    type Value = Vol1;

    const LENGTH: usize = 80;

    ghost Says = { Vol1Says };

    ghost says = { vol1_says };

    ghost LENGTH = { 80 };

    ghost place = { λ _ l. vol1_place l };

    ghost image = { λ _ v. vol1_line (vol1_says v) };

    ghost fits = { λ _ v. Vol1Fits (vol1_says v) };

    ghost tiled = { Prim.search rules };

    ghost unbroken = { λ c v h. owner_unbroken (owner_says v.owner) v.serial h };

    ghost back = { λ c v h. owner_back (owner_says v.owner) v.serial h };

    fn read(line: &[u8], _context: &()) -> Result<Vol1, FileFault> {
        if names_sun(line) {
            read_sun(line)
        } else {
            read_marked(line)
        }
    }

    fn write(value: &Vol1, _context: &(), out: &mut [u8]) {
        put_bytes(out, 0, b"VOL1");
        put_bytes(out, 4, &value.serial);
        put_spaces(out, 10, 11);
        put_spaces(out, 11, 31);
        put_bytes(out, 31, &mark_places(value.owner));
        put_spaces(out, 37, 41);
        put_bytes(out, 41, &owner_places(value.owner));
        put_spaces(out, 47, 79);
        put_bytes(out, 79, b"1");
    }
}

// With a mark and with a number other fields stand at 32-37 and 42-47. One list of fields for both would choose twice on its way, and be neither table of VOL1.
// The three below are steps of `Line::read`, and ask of the line what it asks: a type for a line of 80 bytes would be made and taken apart in it.

/// Whether no mark stands in the line, so that a service user number does.
fn names_sun(line: &[u8]) -> bool
    requires { length line.now ≡ 80 }
    ensures { result ≡ has_sun line.now }
{
    let blank: &[u8] = b"      ";
    part(line, 31, 37) == blank
}

fn read_sun(line: &[u8]) -> Result<Vol1, FileFault>
    requires { length line.now ≡ 80 }
    ensures { result_map_both vol1_says (λ e. e) result ≡ place_reading (stands vol1_sun (λ s free n. volume (numbered n) s)) line.now }
{
    Fixed(b"VOL1").at(line, 0)?;
    let serial = Serial.at(line, 4)?;
    BlankOr(*b"0").at(line, 10)?;
    Spaces(20).at(line, 11)?;
    Spaces(6).at(line, 31)?;
    Spaces(4).at(line, 37)?;
    let sun = SmallNumber { places: 6 }.at(line, 41)?;
    Spaces(32).at(line, 47)?;
    Fixed(b"1").at(line, 79)?;
    Ok(Vol1 {
        owner: Owner::Sun(sun),
        serial,
    })
}

fn read_marked(line: &[u8]) -> Result<Vol1, FileFault>
    requires { length line.now ≡ 80 }
    ensures { result_map_both vol1_says (λ e. e) result ≡ place_reading (stands vol1_marked (λ s free m. volume (marked m) s)) line.now }
{
    Fixed(b"VOL1").at(line, 0)?;
    let serial = Serial.at(line, 4)?;
    BlankOr(*b"0").at(line, 10)?;
    Spaces(20).at(line, 11)?;
    let mark = OwnerMark.at(line, 31)?;
    Spaces(4).at(line, 37)?;
    Spaces(6).at(line, 41)?;
    Spaces(32).at(line, 47)?;
    Fixed(b"1").at(line, 79)?;
    Ok(Vol1 {
        owner: Owner::Marked(mark),
        serial,
    })
}

/// What stands at VOL1 32-37: the mark, or spaces beside a service user number.
fn mark_places(owner: Owner) -> [u8; 6]
    ensures { result ≡ places_of_mark owner }
{
    match owner {
        Owner::Sun(_) => [b' '; 6],
        Owner::Marked(mark) => mark.text(),
    }
}
