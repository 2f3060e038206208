//! The rounds, on the state as four words: one a column, row 0 in the highest byte.

ghost use Rattle.std.specs.Prelude.{◌≡◌, ◌<◌};
ghost use Rattle.aes_block.specs.Columns.{state_of_columns, words_of};
ghost use Rattle.snp_model.specs.Aes.{add_round_key, mix_columns, rounds, shift_rows, sub_bytes};

use crate::columns::{mixed_column, substituted_column, word_of};

/// The state after the first AddRoundKey.
fn first_state(block: &[u8; 16], schedule: &[u32; 60]) -> [u32; 4]
    ensures { state_of_columns result ≡ add_round_key block.now (words_of schedule.now) 0 }
{
    [
        word_of(block[0], block[1], block[2], block[3]) ^ schedule[0],
        word_of(block[4], block[5], block[6], block[7]) ^ schedule[1],
        word_of(block[8], block[9], block[10], block[11]) ^ schedule[2],
        word_of(block[12], block[13], block[14], block[15]) ^ schedule[3],
    ]
}

/// The state after a round with MixColumns.
fn middle_round(state: [u32; 4], schedule: &[u32; 60], round: usize) -> [u32; 4]
    requires { round < 15 }
    ensures { state_of_columns result
        ≡ add_round_key (mix_columns (shift_rows (sub_bytes (state_of_columns state)))) (words_of schedule.now) round }
{
    let first = state[0].to_be_bytes();
    let second = state[1].to_be_bytes();
    let third = state[2].to_be_bytes();
    let fourth = state[3].to_be_bytes();
    let at = 4 * round;
    [
        mixed_column(first[0], second[1], third[2], fourth[3], schedule[at]),
        mixed_column(second[0], third[1], fourth[2], first[3], schedule[at + 1]),
        mixed_column(third[0], fourth[1], first[2], second[3], schedule[at + 2]),
        mixed_column(fourth[0], first[1], second[2], third[3], schedule[at + 3]),
    ]
}

/// The state after the last round, which is without MixColumns.
fn last_round(state: [u32; 4], schedule: &[u32; 60]) -> [u32; 4]
    ensures { state_of_columns result
        ≡ add_round_key (shift_rows (sub_bytes (state_of_columns state))) (words_of schedule.now) 14 }
{
    let first = state[0].to_be_bytes();
    let second = state[1].to_be_bytes();
    let third = state[2].to_be_bytes();
    let fourth = state[3].to_be_bytes();
    [
        substituted_column(first[0], second[1], third[2], fourth[3]) ^ schedule[56],
        substituted_column(second[0], third[1], fourth[2], first[3]) ^ schedule[57],
        substituted_column(third[0], fourth[1], first[2], second[3]) ^ schedule[58],
        substituted_column(fourth[0], first[1], second[2], third[3]) ^ schedule[59],
    ]
}

/// The bytes of the state, column by column.
fn block_of(state: [u32; 4]) -> [u8; 16]
    ensures { result ≡ state_of_columns state }
{
    let [a, b, c, d] = state[0].to_be_bytes();
    let [e, f, g, h] = state[1].to_be_bytes();
    let [i, j, k, l] = state[2].to_be_bytes();
    let [m, n, o, p] = state[3].to_be_bytes();
    [a, b, c, d, e, f, g, h, i, j, k, l, m, n, o, p]
}

/// The block after the 14 rounds under the key schedule.
pub(crate) fn enciphered(block: &[u8; 16], schedule: &[u32; 60]) -> [u8; 16]
    ensures { result
        ≡ add_round_key (shift_rows (sub_bytes (rounds (words_of schedule.now) block.now 13))) (words_of schedule.now) 14 }
{
    // Written out: a loop over the rounds takes a third longer.
    let state = first_state(block, schedule);
    let state = middle_round(state, schedule, 1);
    let state = middle_round(state, schedule, 2);
    let state = middle_round(state, schedule, 3);
    let state = middle_round(state, schedule, 4);
    let state = middle_round(state, schedule, 5);
    let state = middle_round(state, schedule, 6);
    let state = middle_round(state, schedule, 7);
    let state = middle_round(state, schedule, 8);
    let state = middle_round(state, schedule, 9);
    let state = middle_round(state, schedule, 10);
    let state = middle_round(state, schedule, 11);
    let state = middle_round(state, schedule, 12);
    let state = middle_round(state, schedule, 13);
    block_of(last_round(state, schedule))
}
