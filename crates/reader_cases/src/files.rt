// The embedded files, and the tables of damages.

// The base file R: operations (64, 2) (0, 1); uses (3, 1) (24, 16) (1, 2); dependences (0, 1, 64, 15) (1, 0, -64, 0).
pub const R: [u8; 44] = *b"\x01\x03OPER\x1a\x00\x04\x00USES\x1e\x00\x06\x00DEPS\x24\x00\x08\x00\
    \x40\x02\x00\x01\
    \x03\x01\x18\x10\x01\x02\
    \x00\x01\x40\x0f\x01\x00\xc0\x00";

// The head of the largest file: 64 operations from 26, 256 uses from 154, 256 dependences from 666.
pub const LARGEST_HEAD: [u8; 26] =
    *b"\x01\x03OPER\x1a\x00\x80\x00USES\x9a\x00\x00\x02DEPS\x9a\x02\x00\x04";

// What is put into R: an offset, and the value of its byte.
pub type Damage = (usize, u8);

// Damages of one byte.
pub const ONE_BYTE: [Damage; 127] = [
    // The head: version, number of entries.
    (0, 0),
    (0, 2),
    (0, 255),
    (1, 2),
    (1, 4),
    (1, 0),
    // Entry OPER: its tag.
    (2, 80),
    (3, 79),
    (4, 68),
    (5, 114),
    // Its offset, low and high byte.
    (6, 25),
    (6, 27),
    (7, 1),
    // Its length: no whole records; none; 65; 130.
    (8, 3),
    (8, 5),
    (8, 0),
    (8, 130),
    (9, 1),
    // 1, 3 and 64 records are lengths by themselves: USES then does not begin where OPER ends.
    (8, 2),
    (8, 6),
    (8, 128),
    // Entry USES: its tag.
    (10, 68),
    (11, 69),
    (12, 83),
    (13, 0),
    // Its offset, low and high byte.
    (14, 29),
    (14, 31),
    (15, 1),
    // Its length: no whole records; 259.
    (16, 5),
    (16, 7),
    (17, 2),
    // 0, 2, 4 and 131 records are lengths by themselves: DEPS then does not begin where USES ends.
    (16, 0),
    (16, 4),
    (16, 8),
    (17, 1),
    // Entry DEPS: its tag.
    (18, 85),
    (19, 80),
    (20, 69),
    (21, 51),
    // Its offset, low and high byte.
    (22, 35),
    (22, 37),
    (23, 1),
    // Its length: no whole records; 258.
    (24, 7),
    (24, 9),
    (24, 10),
    (25, 4),
    // 0 and 1 records end before the file does, 3 and 66 after.
    (24, 0),
    (24, 4),
    (24, 12),
    (25, 1),
    // The latencies.
    (26, 65),
    (26, 255),
    (28, 65),
    (28, 255),
    (26, 0),
    (26, 63),
    (28, 64),
    (28, 1),
    // The numbers of uses.
    (27, 5),
    (27, 255),
    (29, 5),
    (29, 255),
    // Numbers of uses whose sum is not 3.
    (27, 0),
    (27, 1),
    (27, 3),
    (27, 4),
    (29, 0),
    (29, 2),
    (29, 3),
    (29, 4),
    // The slots: out of range.
    (30, 0),
    (30, 25),
    (30, 255),
    (32, 0),
    (32, 25),
    (32, 255),
    (34, 0),
    (34, 25),
    (34, 255),
    // Use 1 is of the same operation as use 0, and needs a slot above: equal, below, equal from the other side, one above.
    (32, 3),
    (32, 2),
    (30, 24),
    (32, 4),
    (30, 23),
    (30, 1),
    // Use 2 is the first of its operation.
    (34, 24),
    (34, 3),
    // The durations.
    (31, 0),
    (31, 17),
    (31, 255),
    (33, 0),
    (33, 17),
    (35, 0),
    (35, 17),
    (31, 16),
    (33, 1),
    (35, 16),
    (35, 1),
    // From and to.
    (36, 2),
    (36, 255),
    (37, 2),
    (37, 255),
    (40, 2),
    (41, 2),
    (36, 1),
    (37, 0),
    (40, 0),
    (41, 1),
    // The delays: 65, -65, -128, 127, and the ends of the range.
    (38, 65),
    (38, 191),
    (38, 128),
    (38, 127),
    (42, 65),
    (42, 191),
    (42, 128),
    (42, 127),
    (38, 192),
    (38, 0),
    (38, 255),
    (42, 64),
    (42, 193),
    // The distances.
    (39, 16),
    (39, 255),
    (43, 16),
    (43, 255),
    (39, 0),
    (43, 15),
];

// Damages of two bytes, the one that is put first before the other.
pub const TWO_BYTES: [(Damage, Damage); 31] = [
    // Version and number of entries; number of entries and the first tag.
    ((0, 2), (1, 4)),
    ((1, 4), (2, 0)),
    // Two tags.
    ((2, 0), (18, 0)),
    ((10, 0), (18, 0)),
    // A tag of one entry and a length of an earlier one; the other way round.
    ((21, 0), (8, 3)),
    ((13, 0), (24, 7)),
    // USES with 256 records, so that DEPS begins at the wrong place; with 257.
    ((16, 0), (17, 2)),
    ((16, 2), (17, 2)),
    // OPER with one record less and USES moved to it; USES with one less and DEPS moved to it.
    ((8, 2), (14, 28)),
    ((16, 4), (22, 34)),
    // The end of the last body, and a latency.
    ((24, 12), (26, 65)),
    // A latency and a number of uses, in both orders; a latency and a dependence.
    ((26, 65), (27, 5)),
    ((28, 65), (27, 5)),
    ((28, 65), (36, 2)),
    // A latency of the last operation before the sum; the sum before a duration; a number of uses before a slot.
    ((27, 1), (28, 65)),
    ((29, 2), (31, 0)),
    ((29, 5), (30, 0)),
    // The same sum by other numbers, so that slots 24 1, or 3 24 1, are of one operation.
    ((27, 1), (29, 2)),
    ((27, 3), (29, 0)),
    ((27, 0), (29, 3)),
    // A slot and a duration: of one use; of a use and an earlier one.
    ((30, 0), (31, 0)),
    ((32, 3), (31, 17)),
    ((34, 0), (33, 17)),
    // A duration and a dependence.
    ((35, 0), (36, 2)),
    // Two fields of a dependence; fields of two, the later given first.
    ((36, 2), (37, 2)),
    ((38, 65), (39, 16)),
    ((40, 2), (39, 16)),
    ((43, 16), (42, 128)),
    // Two changes, and accepted still.
    ((30, 1), (32, 2)),
    ((36, 1), (37, 1)),
    ((38, 192), (42, 64)),
];
