// Sizes in an image of the old form, where an incarnation number has one byte and no limits follow the head. Fields in front of the maps stand as in the new one.
use image::layout::{DEPENDENCES, HEAD, MESSAGES, STATE, TRANSACTORS};

pub const HISTORY: usize = 1 + 1 + marks::PLACES;

pub const MAP: usize = HISTORY * maps::ENTRIES;

pub const TRANSACTOR: usize = STATE + MAP + MAP + MAP;

pub const MESSAGE: usize = DEPENDENCES + MAP;

pub const FIRST_MESSAGE: usize = HEAD + TRANSACTOR * TRANSACTORS;

pub const IMAGE: usize = FIRST_MESSAGE + MESSAGE * MESSAGES;
