//! The table of refusals: each number with its words.
ghost use Rattle.std.specs.Prelude.{◌≡◌, ◌==◌, MatchOption, codes};
ghost use Rattle.std.specs.List.{find};
ghost use Rattle.std.specs.Option.{option_map};

/// Every refusal: its number, and its words.
pub const REFUSALS: [(u32, &'static str); 83] = [
    (1, "empty: no byte, or a text without an instruction"),
    (2, "more than 1,024 slots"),
    (3, "an incomplete last slot"),
    (4, "an unknown opcode or operation"),
    (5, "a register above R10"),
    (6, "an unused field that isn't zero"),
    (7, "a wide load without its second slot"),
    (
        8,
        "an object file without code in `.text`, with relocations, or of another machine",
    ),
    (10, "a backward jump"),
    (11, "a jump to the end or past it"),
    (12, "a jump into a wide load"),
    (13, "the last instruction neither exits nor jumps"),
    (14, "an unreachable instruction"),
    (
        15,
        "a read of a register that may be unset, or may be an address or a number",
    ),
    (16, "a write to R10"),
    (17, "an address in an operation that addresses don't have"),
    (18, "an address moved too far, or by an unknown amount"),
    (19, "an address in a test"),
    (20, "a store of an address"),
    (21, "an access that may leave the record"),
    (22, "a store into the record"),
    (23, "an access that may leave the stack"),
    (24, "a load of stack bytes that may be unwritten"),
    (25, "a number used as an address"),
    (26, "an address as the answer"),
    (30, "the name is already registered"),
    (31, "the name isn't registered"),
    (32, "the table is full: 4,096 names, or the side's limit"),
    (33, "an exchange is open"),
    (34, "no exchange is open"),
    (35, "the number isn't above every number begun so far"),
    (36, "the seeds differ"),
    (
        37,
        "the two tables have more names together than one may have: 4,096, or the side's limit",
    ),
    (
        38,
        "the ruling isn't of this clash at one of its words, or differs from the board's",
    ),
    (39, "the exchange isn't complete"),
    (
        40,
        "the journal is full: 65,536 events, or 16 for each name of the side's limit",
    ),
    (
        41,
        "an unknown program, or a word that is neither a built-in resolver nor a label",
    ),
    (42, "other code has the same program id"),
    (43, "the store is full: 256 programs"),
    (44, "an invalid name: not 1 to 32 bytes from 0x21 to 0x7e"),
    (45, "the exchange numbers differ"),
    (46, "a message from the side itself"),
    (47, "the name is already withdrawn"),
    (48, "the list of withdrawn names is closed"),
    (49, "other tables, uptimes or withdrawn names were merged"),
    (50, "invalid hex digits, or the wrong number of them"),
    (
        51,
        "an unknown word, the wrong number of words, or an unprintable character",
    ),
    (
        52,
        "an invalid number: not decimal, with a sign or leading zeros, or too big",
    ),
    (
        53,
        "an invalid label: in use, a built-in resolver's word, or not 1 to 32 bytes from 0x21 to 0x7e",
    ),
    (54, "a line of more than 20,000 bytes"),
    (55, "a record of neither 160 nor 128 bytes"),
    (56, "a file that isn't UTF-8"),
    (57, "a file of more than 1,048,576 bytes"),
    (58, "a file that can't be read"),
    (60, "an unknown mnemonic"),
    (61, "an operand is missing or invalid"),
    (62, "a number out of range"),
    (63, "extra text after the last operand"),
    (70, "a message that ends too early"),
    (71, "not a message of this kind"),
    (72, "extra bytes after the message"),
    (
        73,
        "a count above its limit: 1,048,576 rows or names, 8,192 bytes of code",
    ),
    (74, "an unknown side"),
    (75, "an invalid name in a message"),
    (76, "an unknown kind of resolver"),
    (77, "a name that the list already has"),
    (78, "a name that isn't above the one before it"),
    (79, "a program without code in this row or an earlier one"),
    (80, "code that an earlier row already has"),
    (81, "code in a message that the verifier rejects"),
    (82, "an unsupported version of messages"),
    (
        83,
        "a message that differs from the one of its kind and number that was heard",
    ),
    (84, "bytes that differ from their checksum"),
    (90, "out of memory"),
    (91, "an empty handle"),
    (92, "an index out of range"),
    (93, "a buffer of another length"),
    (94, "a registered name has the program as its resolver"),
    (95, "the replica isn't the primary of its view"),
    (96, "an entry of another view"),
    (97, "entries before this one are missing"),
    (98, "a snapshot of the replica's own latest view"),
    (99, "no number is left for a view or an entry"),
];

/// Returns the words of a refusal's number, or "unknown refusal".
pub fn words_of(number: u32) -> &'static str {
    words_in(&REFUSALS, number)
}

/// Returns the words of a number in a table, or "unknown refusal".
pub fn words_in(refusals: &[(u32, &'static str)], number: u32) -> &'static str
    ensures { MatchOption (find (λ refusal. refusal.0 == number) refusals.now)
        (result.now ≡ codes "unknown refusal") (λ refusal. result.now ≡ refusal.1.now) }
{
    match find_refusal(refusals, number) {
        Some(refusal) => refusal.1,
        None => "unknown refusal",
    }
}

// Finds the entry with this number.
fn find_refusal<'a>(
    refusals: &'a [(u32, &'static str)],
    number: u32,
) -> Option<&'a (u32, &'static str)>
    ensures { option_map (λ refusal. refusal.now) result ≡ find (λ refusal. refusal.0 == number) refusals.now }
{
    refusals.iter().find(|refusal| refusal.0 == number)
}
