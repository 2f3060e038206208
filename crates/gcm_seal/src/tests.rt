use super::*;
use aes_block::Key256;
use std::test::Fail;

/// A text under a key, an IV and AAD, and what sealing makes of it.
struct Case {
    key: [u8; 32],
    iv: [u8; 12],
    aad: &'static [u8],
    text: &'static [u8],
    sealed: &'static [u8],
    tag: [u8; 16],
}

const ZERO_KEY: [u8; 32] = [0; 32];

const ZERO_IV: [u8; 12] = [0; 12];

const KEY: [u8; 32] = [
    0, 1, 2, 3, 4, 5, 6, 7, 8, 9, 10, 11, 12, 13, 14, 15, 16, 17, 18, 19, 20, 21, 22, 23, 24, 25,
    26, 27, 28, 29, 30, 31,
];

const IV: [u8; 12] = [100, 101, 102, 103, 104, 105, 106, 107, 108, 109, 110, 111];

// The first two are test cases 13 and 14 of "The Galois/Counter Mode of Operation" (McGrew and Viega), the others are from OpenSSL.
const CASES: [Case; 6] = [
    Case {
        key: ZERO_KEY,
        iv: ZERO_IV,
        aad: b"",
        text: b"",
        sealed: b"",
        tag: [
            0x53, 0x0f, 0x8a, 0xfb, 0xc7, 0x45, 0x36, 0xb9, 0xa9, 0x63, 0xb4, 0xf1, 0xc4, 0xcb,
            0x73, 0x8b,
        ],
    },
    Case {
        key: ZERO_KEY,
        iv: ZERO_IV,
        aad: b"",
        text: &[0; 16],
        sealed: b"\xce\xa7\x40\x3d\x4d\x60\x6b\x6e\x07\x4e\xc5\xd3\xba\xf3\x9d\x18",
        tag: [
            0xd0, 0xd1, 0xc8, 0xa7, 0x99, 0x99, 0x6b, 0xf0, 0x26, 0x5b, 0x98, 0xb5, 0xd4, 0x8a,
            0xb9, 0x19,
        ],
    },
    Case {
        key: KEY,
        iv: IV,
        aad: b"\x01\x06\x0b\x10\x15\x1a\x1f\x24\x29\x2e\x33\x38\x3d\x42\x47\x4c",
        text: b"\x03",
        sealed: b"\x4b",
        tag: [
            0x62, 0x52, 0x09, 0xe4, 0x2c, 0xb0, 0x39, 0xad, 0x13, 0x27, 0xd2, 0x58, 0xfd, 0x39,
            0x65, 0x9e,
        ],
    },
    Case {
        key: KEY,
        iv: IV,
        aad: b"\x01\x06\x0b\x10\x15\x1a\x1f\x24\x29\x2e\x33\x38\x3d\x42\x47\x4c\x51\x56\x5b\x60",
        text: b"\x03\x0a\x11\x18\x1f\x26\x2d\x34\x3b\x42\x49\x50\x57\x5e\x65",
        sealed: b"\x4b\x11\xcf\x7e\x66\xcf\x7b\xaa\x05\x20\x16\xb8\x8d\x3b\x0f",
        tag: [
            0x48, 0x9a, 0xdd, 0x08, 0xec, 0xdc, 0xb7, 0x55, 0xe4, 0xb0, 0x95, 0xdb, 0xf9, 0xc9,
            0xa8, 0xbf,
        ],
    },
    Case {
        key: KEY,
        iv: IV,
        aad: b"\x01\x06\x0b\x10\x15\x1a\x1f\x24\x29\x2e\x33\x38\x3d\x42\x47\x4c",
        text: b"\x03\x0a\x11\x18\x1f\x26\x2d\x34\x3b\x42\x49\x50\x57\x5e\x65\x6c",
        sealed: b"\x4b\x11\xcf\x7e\x66\xcf\x7b\xaa\x05\x20\x16\xb8\x8d\x3b\x0f\x91",
        tag: [
            0x6e, 0x31, 0xe6, 0x28, 0x05, 0xcd, 0xf1, 0x19, 0x1a, 0xbb, 0x7b, 0xa5, 0xc1, 0xa8,
            0x3f, 0x62,
        ],
    },
    Case {
        key: KEY,
        iv: IV,
        aad: b"\x01\x06\x0b\x10\x15\x1a\x1f\x24\x29\x2e\x33\x38\x3d\x42\x47\x4c\x51\x56\x5b\x60",
        text: b"\x03\x0a\x11\x18\x1f\x26\x2d\x34\x3b\x42\x49\x50\x57\x5e\x65\x6c\x73",
        sealed: b"\x4b\x11\xcf\x7e\x66\xcf\x7b\xaa\x05\x20\x16\xb8\x8d\x3b\x0f\x91\x31",
        tag: [
            0x6f, 0x3c, 0xcd, 0x5c, 0xc4, 0xcc, 0xf1, 0x11, 0x6d, 0x25, 0xd3, 0xa9, 0xd0, 0x2f,
            0xd5, 0x04,
        ],
    },
];

#[test]
fn seals_and_unseals(rt: HostRuntime) -> Result<(), Fail> {
    for case in &CASES {
        let key = Key256::new(&case.key);
        let mut text = case.text.to_vec(rt.alloc())?;
        assert!(rt; case.aad.len() <= 20 && text.len() <= 17);

        let tag = seal(&key, &case.iv, case.aad, &mut text);
        assert_eq!(rt; text.as_slice(), case.sealed);
        assert_eq!(rt; tag, case.tag);

        let kept = [0; 16];
        let refused = unseal(&key, &case.iv, case.aad, &mut text, &kept);
        assert_eq!(rt;
            refused,
            Err(TagDiffers {
                found: case.tag,
                kept
            })
        );
        assert_eq!(rt; text.as_slice(), case.sealed);

        assert_eq!(rt; unseal(&key, &case.iv, case.aad, &mut text, &tag), Ok(()));
        assert_eq!(rt; text.as_slice(), case.text);
    }
    Ok(())
}
