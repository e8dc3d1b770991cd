// What is read from: the data, and how it is written and read.
use crate::settings::Settings;

#[derive(Clone, Copy)]
pub struct Reader<'a> {
    pub bytes: &'a [u8],
    pub set: Settings,
}
