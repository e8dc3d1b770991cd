// How a message is written: the byte order and the version that its representation identifier names; and how it is read.
ghost use Rattle.std.specs.Prelude.{◌≡◌, slice_index};
ghost use Rattle.wire.specs.Identifier.{settings_of};
ghost use Rattle.wire.specs.Ends.{keeps_ends};

#[derive(Clone, Copy)]
pub enum ByteOrder {
    BigEndian,
    LittleEndian,
}

#[derive(Clone, Copy)]
pub enum Version {
    Xcdr1,
    Xcdr2,
}

// Whose reading of XCDR2 is wanted: the crate's, or the one that the standard gives. XCDR1 is alike in both.
#[derive(Clone, Copy)]
pub enum Mode {
    Crate,
    Standard,
}

#[derive(Clone, Copy)]
pub struct Settings {
    pub order: ByteOrder,
    pub version: Version,
    pub mode: Mode,
}

impl Settings {
    // Whether an end that a DHEADER or a member's header tells is kept: what it begins is then read from the data up to there.
    pub fn keeps_ends(self) -> bool
        ensures { result ≡ keeps_ends self }
    {
        match (self.version, self.mode) {
            (Version::Xcdr1, _) => false,
            (Version::Xcdr2, Mode::Crate) => false,
            (Version::Xcdr2, Mode::Standard) => true,
        }
    }
}

const CDR_BE: [u8; 2] = *b"\x00\x00";

const CDR_LE: [u8; 2] = *b"\x00\x01";

const PL_CDR_BE: [u8; 2] = *b"\x00\x02";

const PL_CDR_LE: [u8; 2] = *b"\x00\x03";

const CDR2_BE: [u8; 2] = *b"\x00\x06";

const CDR2_LE: [u8; 2] = *b"\x00\x07";

const D_CDR2_BE: [u8; 2] = *b"\x00\x08";

const D_CDR2_LE: [u8; 2] = *b"\x00\x09";

const PL_CDR2_BE: [u8; 2] = *b"\x00\x0a";

const PL_CDR2_LE: [u8; 2] = *b"\x00\x0b";

// The settings that a message's first two bytes name, in the mode that is asked for.
pub fn settings_of(id: [u8; 2], mode: Mode) -> Option<Settings>
    ensures { result ≡ settings_of mode (slice_index id 0) (slice_index id 1) }
{
    let (order, version) = if id == CDR_BE || id == PL_CDR_BE {
        (ByteOrder::BigEndian, Version::Xcdr1)
    } else if id == CDR_LE || id == PL_CDR_LE {
        (ByteOrder::LittleEndian, Version::Xcdr1)
    } else if id == CDR2_BE || id == D_CDR2_BE || id == PL_CDR2_BE {
        (ByteOrder::BigEndian, Version::Xcdr2)
    } else if id == CDR2_LE || id == D_CDR2_LE || id == PL_CDR2_LE {
        (ByteOrder::LittleEndian, Version::Xcdr2)
    } else {
        return None;
    };
    Some(Settings {
        order,
        version,
        mode,
    })
}
