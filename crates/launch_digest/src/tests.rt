//! Expected values: Python's hashlib, as tests/measurement.py prints them.

ghost use Rattle.std.specs.Prelude.{◌<◌};

use crate::Digest;
use sha2::{Digest as _, Sha384};

const NORMAL: u8 = 1;

const ZERO: u8 = 3;

const UNMEASURED: u8 = 4;

// A page: its type, IMI flag, permissions of VMPL1 to VMPL3 and guest page number, the first of its words, and by how
// much each next one is greater.
type Page = (u8, bool, [u8; 3], u64, u64, u64);

// The digest of a launch of one page.
const LAUNCHES: [(Page, &[u8; 96]); 10] = [
    (
        (NORMAL, false, [0, 0, 0], 0, 0, 1),
        b"82229304d7386215ef2fa60f6dad1cbb9ce59fb9f0008d0ccccf0d2a90feab32131d4c8b19188b224a6191aeedff7f50",
    ),
    (
        (NORMAL, true, [0, 0, 0], 0, 0, 1),
        b"b29a456342c622a458bca0de9478f82812a7c8198ee45bd80e55761b0bed105b1ff1a0905c2ca673ed56fb784f539aa8",
    ),
    (
        (NORMAL, false, [1, 2, 4], 0, 0, 0),
        b"4b3c592d346cac636534b40705b1028a21e9a2635748828e65db2859eb8ca90b216cd22354fc0fbd0facae89fac1509e",
    ),
    (
        (NORMAL, false, [15, 7, 3], 0x12345, 0x0123456789abcdef, 7),
        b"ab84c16b7df84638d8540520f44e71e7636c13d7c96e2bacbeb935459161d36db9da10f05743a94b9efe03c7b66a0045",
    ),
    (
        (NORMAL, true, [0, 0, 15], (1 << 36) - 1, u64::MAX, 0),
        b"52cb14514489f3f771134e21d009382393b4069deaff33d1f784b3acaf0fa0855619d28669363cee6a8a0132e7555297",
    ),
    (
        (ZERO, false, [0, 0, 0], 0, 0, 0),
        b"70c0ecaab9608f14ebf8ac6f0f07bcd8728f4e2ab30382b539b4de4de904ca9f8ebdf4b2cd3cd84dd996bd55dd794676",
    ),
    (
        (ZERO, false, [0, 0, 0], 0, 0, 1),
        b"70c0ecaab9608f14ebf8ac6f0f07bcd8728f4e2ab30382b539b4de4de904ca9f8ebdf4b2cd3cd84dd996bd55dd794676",
    ),
    (
        (ZERO, true, [8, 4, 2], 0x80000, 0, 0),
        b"2fafe5015a089380f399f20375f0e9eb65cf50213cef87d3ac1f5304f124ca986ef47195af94e09f267f03289b581b13",
    ),
    (
        (UNMEASURED, false, [0, 0, 0], 0, 0, 0),
        b"ed501ced343b88df8d4f114dc336e76fa53d3ad6ef71dab22a38755569189d2844af45f162ec25b45beefc8ea308cba7",
    ),
    (
        (UNMEASURED, false, [5, 0, 10], (1 << 36) - 1, 7, 3),
        b"3c69418808ebf17f93273effed53190d3231fcf10670e96430fb5d76cfcecbae125562da3d6d31c9e4f19cb5db5df7ce",
    ),
];

// Two NORMAL pages of zero words, at guest pages 0 and 1: the digest before each and after both, and in each PAGE_INFO
// the contents and the last 16 bytes.
const BEFORE_FIRST: &[u8; 96] =
    b"000000000000000000000000000000000000000000000000000000000000000000000000000000000000000000000000";

const BEFORE_SECOND: &[u8; 96] =
    b"9d13634b6014bb21cf059b2dc694e7bff01a8a7137041100cd2b695f3d10fb687267b97808b27f8f471d943bc6f53a20";

const AFTER_BOTH: &[u8; 96] =
    b"788fcd12cf2a62b8661cf2440e0b2650d4e6133a6b8ad44e0e1db720788cb40e183dbcd8da4a097dc96cd73609d2d2fe";

const ZERO_WORDS: &[u8; 96] =
    b"c0e59a3e3ffbd3b5c75428fb36432facabc745944296ff515f737c4fef4efc64586809f7a16f56354a1eaecf2aa8d774";

const FIRST_FIELDS: u128 = 0x70000100000000000000000000000000;

const SECOND_FIELDS: u128 = 0x70000100000000000010000000000000;

fn digit(code: u8) -> u8
    ensures { result < 16 }
{
    match code {
        b'0'..=b'9' => code - b'0',
        b'a'..=b'f' => code - b'a' + 10,
        _ => 0,
    }
}

// The 48 bytes that are written in hex.
fn bytes_of(text: &[u8; 96]) -> [u8; 48] {
    let mut bytes = [0; 48];
    for i in 0..48 {
        bytes[i] = 16 * digit(text[2 * i]) + digit(text[2 * i + 1]);
    }
    bytes
}

// The SHA-384 digest of a PAGE_INFO that is given by its digest so far, its contents and its last 16 bytes.
fn digest_of(so_far: &[u8; 96], contents: &[u8; 96], fields: u128) -> [u8; 48] {
    let mut page_info = Sha384::new();
    page_info.update(bytes_of(so_far));
    page_info.update(bytes_of(contents));
    page_info.update(fields.to_be_bytes());
    page_info.finalize()
}

// A page's words, each greater than the last by `step`.
fn words_of(start: u64, step: u64) -> [u64; 512] {
    let mut words = [start; 512];
    for i in 1..512 {
        words[i] = words[i - 1].wrapping_add(step);
    }
    words
}

#[test]
fn digests(rt: HostRuntime) {
    let mut digest = Digest::zero();
    assert_eq!(rt; digest.bytes(), bytes_of(BEFORE_FIRST));
    digest.extend(NORMAL, false, [0; 3], 0, &[0; 512]);
    assert_eq!(rt; digest.bytes(), bytes_of(BEFORE_SECOND));
    assert_eq!(rt;
        digest.bytes(),
        digest_of(BEFORE_FIRST, ZERO_WORDS, FIRST_FIELDS)
    );
    digest.extend(NORMAL, false, [0; 3], 1, &[0; 512]);
    assert_eq!(rt; digest.bytes(), bytes_of(AFTER_BOTH));
    assert_eq!(rt;
        digest.bytes(),
        digest_of(BEFORE_SECOND, ZERO_WORDS, SECOND_FIELDS)
    );

    for ((page_type, imi, perms, gpn, start, step), want) in LAUNCHES {
        assert!(rt; page_type == NORMAL || page_type == ZERO || page_type == UNMEASURED);
        let mut digest = Digest::zero();
        digest.extend(page_type, imi, perms, gpn, &words_of(start, step));
        assert_eq!(rt;
            digest.bytes(),
            bytes_of(want),
            "{page_type} {imi} {perms:?} {gpn}"
        );
    }
}
