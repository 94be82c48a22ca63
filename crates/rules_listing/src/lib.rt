// The rules of the listing stand in specs/. Of code there is one number.
#![tactic(auto)]

// 01, The listing: the bytes that have to follow the place reached, room for every line.
pub const ROOM: usize = 2048;
