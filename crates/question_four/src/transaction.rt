// A program with a transaction: T0 adds 1 to word 0, T1 copies word 0 to word 1, both in transaction 1; T2 goes on to itself. The event saves
// its data in word 0.
pub const PROGRAM: [u16; 40] = [
    // contents
    0xC0B1, 3, 1, 2, 0, 40,
    // the rows of T0, T1, T2 and E0
    18, 5, 1, 28, 3, 1, 34, 1, 0, 36, 2, 0,
    // T0
    0x0800, 0, 0x0010, 1, 0x0201, 0, 0x0900, 0, 0x0F00, 1,
    // T1
    0x0800, 0, 0x0900, 1, 0x0F00, 2,
    // T2
    0x0F00, 2,
    // E0
    0x0900, 0, 0x1000, 0,
];
