// The numbers of the kinds: "1 unsigned and 2 signed integer ..; 3 decimal ..; 4 currency ..; 5 sequence; 6 datetime; 7 boolean; 8 string ..; 9 hex"

pub const UNSIGNED: u8 = 1;

pub const SIGNED: u8 = 2;

pub const DECIMAL: u8 = 3;

pub const CURRENCY: u8 = 4;

pub const SEQUENCE: u8 = 5;

pub const DATETIME: u8 = 6;

pub const BOOLEAN: u8 = 7;

pub const STRING: u8 = 8;

pub const HEX: u8 = 9;
