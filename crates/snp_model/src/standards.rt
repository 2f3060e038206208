//! The test vectors of the standards, as laws of the definitions that this project writes down of them. The functions do
//! nothing: their contracts are the laws, and their proof is computation. Vectors are in hexadecimal, as the standards
//! print them: `bytes 16 0x..` are 16 bytes, the first of them first.

ghost use Rattle.std.specs.Prelude.{◌≡◌, ℕ, true, false, [], ◌∷◌, codes, map, replicate};
ghost use Rattle.sha2.specs.Sha512.{sha384};
ghost use Rattle.snp_model.specs.Aes.{cipher, key_expansion};
ghost use Rattle.snp_model.specs.AesField.{◌•◌, s_box};
ghost use Rattle.snp_model.specs.Gcm.{plain, seal};
ghost use Rattle.snp_model.specs.Measurement.{measure};
ghost use Rattle.snp_model.specs.State.{zero_words};
ghost use Rattle.snp_model.specs.Vectors.{bytes, rising_words};

/// AES-256, on the examples of FIPS 197.
pub fn cipher_vectors()
    // Section 4.2: the product of the bytes 57 and 83, and that of 57 and 13.
    ensures product { 0x57 • 0x83 ≡ 0xc1 }
    ensures multiple { 0x57 • 0x13 ≡ 0xfe }

    // Section 5.1.1: what the S-box makes of the byte 53.
    ensures substitution { s_box 0x53 ≡ 0xed }

    // Appendix A.3: the expansion of a key of 256 bits.
    ensures schedule { key_expansion (bytes 32 0x603deb1015ca71be2b73aef0857d77811f352c073b6108d72d9810a30914dff4)
        ≡ map (bytes 4) (
        0x603deb10 ∷ 0x15ca71be ∷ 0x2b73aef0 ∷ 0x857d7781 ∷
        0x1f352c07 ∷ 0x3b6108d7 ∷ 0x2d9810a3 ∷ 0x0914dff4 ∷
        0x9ba35411 ∷ 0x8e6925af ∷ 0xa51a8b5f ∷ 0x2067fcde ∷
        0xa8b09c1a ∷ 0x93d194cd ∷ 0xbe49846e ∷ 0xb75d5b9a ∷
        0xd59aecb8 ∷ 0x5bf3c917 ∷ 0xfee94248 ∷ 0xde8ebe96 ∷
        0xb5a9328a ∷ 0x2678a647 ∷ 0x98312229 ∷ 0x2f6c79b3 ∷
        0x812c81ad ∷ 0xdadf48ba ∷ 0x24360af2 ∷ 0xfab8b464 ∷
        0x98c5bfc9 ∷ 0xbebd198e ∷ 0x268c3ba7 ∷ 0x09e04214 ∷
        0x68007bac ∷ 0xb2df3316 ∷ 0x96e939e4 ∷ 0x6c518d80 ∷
        0xc814e204 ∷ 0x76a9fb8a ∷ 0x5025c02d ∷ 0x59c58239 ∷
        0xde136967 ∷ 0x6ccc5a71 ∷ 0xfa256395 ∷ 0x9674ee15 ∷
        0x5886ca5d ∷ 0x2e2f31d7 ∷ 0x7e0af1fa ∷ 0x27cf73c3 ∷
        0x749c47ab ∷ 0x18501dda ∷ 0xe2757e4f ∷ 0x7401905a ∷
        0xcafaaae3 ∷ 0xe4d59b34 ∷ 0x9adf6ace ∷ 0xbd10190d ∷
        0xfe4890d1 ∷ 0xe6188d0b ∷ 0x046df344 ∷ 0x706c631e ∷ []) }

    // Appendix C.3: a block under a key of 256 bits.
    ensures block { cipher (bytes 32 0x000102030405060708090a0b0c0d0e0f101112131415161718191a1b1c1d1e1f)
        (bytes 16 0x00112233445566778899aabbccddeeff)
        ≡ bytes 16 0x8ea2b7ca516745bfeafc49904b496089 }
{}

/// AES-256-GCM, on the test cases with IVs of 96 bits that stand in the specification of the mode, which SP 800-38D takes
/// over (McGrew and Viega, "The Galois/Counter Mode of Operation", appendix B): ciphertext and tag of a text.
pub fn sealing_vectors()
    // Test case 13: the empty text.
    ensures case_13 { seal (replicate 32 0) (replicate 12 0)
        []
        []
        ≡ (
          [],
          bytes 16 0x530f8afbc74536b9a963b4f1c4cb738b,
        ) }

    // Test case 14: a block of zeros.
    ensures case_14 { seal (replicate 32 0) (replicate 12 0)
        []
        (replicate 16 0)
        ≡ (
          bytes 16 0xcea7403d4d606b6e074ec5d3baf39d18,
          bytes 16 0xd0d1c8a799996bf0265b98b5d48ab919,
        ) }

    // Test case 15: four blocks.
    ensures case_15 { seal (bytes 32 0xfeffe9928665731c6d6a8f9467308308feffe9928665731c6d6a8f9467308308) (bytes 12 0xcafebabefacedbaddecaf888)
        []
        (bytes 64 0xd9313225f88406e5a55909c5aff5269a86a7a9531534f7da2e4c303d8a318a721c3c0c95956809532fcf0e2449a6b525b16aedf5aa0de657ba637b391aafd255)
        ≡ (
          bytes 64 0x522dc1f099567d07f47f37a32a84427d643a8cdcbfe5c0c97598a2bd2555d1aa8cb08e48590dbb3da7b08b1056828838c5f61e6393ba7a0abcc9f662898015ad,
          bytes 16 0xb094dac5d93471bdec1a502270e3cc6c,
        ) }

    // Test case 16: a last block that isn't full, and additional data.
    ensures case_16 { seal (bytes 32 0xfeffe9928665731c6d6a8f9467308308feffe9928665731c6d6a8f9467308308) (bytes 12 0xcafebabefacedbaddecaf888)
        (bytes 20 0xfeedfacedeadbeeffeedfacedeadbeefabaddad2)
        (bytes 60 0xd9313225f88406e5a55909c5aff5269a86a7a9531534f7da2e4c303d8a318a721c3c0c95956809532fcf0e2449a6b525b16aedf5aa0de657ba637b39)
        ≡ (
          bytes 60 0x522dc1f099567d07f47f37a32a84427d643a8cdcbfe5c0c97598a2bd2555d1aa8cb08e48590dbb3da7b08b1056828838c5f61e6393ba7a0abcc9f662,
          bytes 16 0x76fc6ece0f4e1768cddf8853bb2d551b,
        ) }

    // The text of test case 16 again, from its ciphertext.
    ensures opened_16 { plain (bytes 32 0xfeffe9928665731c6d6a8f9467308308feffe9928665731c6d6a8f9467308308) (bytes 12 0xcafebabefacedbaddecaf888)
        (bytes 60 0x522dc1f099567d07f47f37a32a84427d643a8cdcbfe5c0c97598a2bd2555d1aa8cb08e48590dbb3da7b08b1056828838c5f61e6393ba7a0abcc9f662)
        ≡ bytes 60 0xd9313225f88406e5a55909c5aff5269a86a7a9531534f7da2e4c303d8a318a721c3c0c95956809532fcf0e2449a6b525b16aedf5aa0de657ba637b39 }
{}

/// SHA-384, on the examples that NIST gives for FIPS 180-4: a message of one block and one of two.
pub fn digest_vectors()
    ensures one_block { sha384 (codes "abc")
        ≡ bytes 48 0xcb00753f45a35e8bb5a03d699ac65007272c32ab0eded1631a8b605a43ff5bed8086072ba1e7cc2358baeca134c825a7 }
    ensures two_blocks { sha384 (codes "abcdefghbcdefghicdefghijdefghijkefghijklfghijklmghijklmnhijklmnoijklmnopjklmnopqklmnopqrlmnopqrsmnopqrstnopqrstu")
        ≡ bytes 48 0x09330c33f71147e83d192fc782cd1b4753111b173b3b05d22fa08086e3b0f712fcc7c71a557e2db966c3e9fa91746039 }
{}

/// The launch measurement. No standard prints vectors of it: these values are those that Python's hashlib gives for PAGE_INFO
/// in the layout of the firmware's manual (SEV-SNP firmware ABI 56860, 8.17; `tests/measurement.py` of `launch_digest`).
pub fn measurement_vectors()
    // A page of each type that is launched, by itself.
    ensures normal { measure (record { page_type = 1; imi = false; perms = 15 ∷ 7 ∷ 3 ∷ []; gpn = 0x12345; words = rising_words 0x0123456789abcdef 7 } ∷ [])
        ≡ bytes 48 0xab84c16b7df84638d8540520f44e71e7636c13d7c96e2bacbeb935459161d36db9da10f05743a94b9efe03c7b66a0045 }
    ensures zero { measure (record { page_type = 3; imi = true; perms = 8 ∷ 4 ∷ 2 ∷ []; gpn = 0x80000; words = zero_words } ∷ [])
        ≡ bytes 48 0x2fafe5015a089380f399f20375f0e9eb65cf50213cef87d3ac1f5304f124ca986ef47195af94e09f267f03289b581b13 }
    ensures unmeasured { measure (record { page_type = 4; imi = false; perms = 5 ∷ 0 ∷ 10 ∷ []; gpn = 0xfffffffff; words = rising_words 7 3 } ∷ [])
        ≡ bytes 48 0x3c69418808ebf17f93273effed53190d3231fcf10670e96430fb5d76cfcecbae125562da3d6d31c9e4f19cb5db5df7ce }

    // Two pages of zeros, one after the other.
    ensures chained { measure (record { page_type = 1; imi = false; perms = 0 ∷ 0 ∷ 0 ∷ []; gpn = 0; words = zero_words }
        ∷ record { page_type = 1; imi = false; perms = 0 ∷ 0 ∷ 0 ∷ []; gpn = 1; words = zero_words } ∷ [])
        ≡ bytes 48 0x788fcd12cf2a62b8661cf2440e0b2650d4e6133a6b8ad44e0e1db720788cb40e183dbcd8da4a097dc96cd73609d2d2fe }
{}
