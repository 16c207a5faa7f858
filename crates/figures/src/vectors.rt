//! The published vectors in the standards' order, each with its label.
use crate::engines::{decrypts, encrypts, expands};
use crate::exchanges::covers;
use crate::fips197::*;
use crate::sp800_38a::*;
use cipher::Word;
use std::alloc::{AllocError, Global};

/// What is published: what has to come out on every route.
#[derive(Clone, Copy)]
pub enum Claim {
    /// The key has this schedule.
    Expands(&'static [u8], &'static [Word]),
    /// Under the key the block encrypts to the cipher.
    Encrypts(&'static [u8], &'static [u8; 16], &'static [u8; 16]),
    /// Under the key the cipher decrypts to the block.
    Decrypts(&'static [u8], &'static [u8; 16], &'static [u8; 16]),
    /// Under the key a run is covered to another, and comes back.
    Covers(&'static [u8], &'static [u8], &'static [u8]),
}

impl Claim {
    /// Whether all five routes agree with it.
    pub fn holds(&self, heap: Global) -> Result<bool, AllocError> {
        match self {
            Claim::Expands(key, words) => Ok(expands(key, words)),
            Claim::Encrypts(key, block, cipher) => Ok(encrypts(key, block, cipher)),
            Claim::Decrypts(key, cipher, block) => Ok(decrypts(key, cipher, block)),
            Claim::Covers(key, from, to) => covers(heap, key, from, to),
        }
    }
}

/// A published vector.
#[derive(Clone, Copy)]
pub struct Vector {
    /// Under which it is printed.
    pub label: &'static str,
    /// What it says.
    pub claim: Claim,
}

/// The vectors of FIPS 197, appendices A to C, and of SP 800-38A, F.5.
pub const VECTORS: [Vector; 17] = [
    Vector {
        label: "v1",
        claim: Claim::Expands(&A1_KEY, &A1_WORDS),
    },
    Vector {
        label: "v2",
        claim: Claim::Expands(&A2_KEY, &A2_WORDS),
    },
    Vector {
        label: "v3",
        claim: Claim::Expands(&A3_KEY, &A3_WORDS),
    },
    Vector {
        label: "v4",
        claim: Claim::Encrypts(&A1_KEY, &B_BLOCK, &B_CIPHER),
    },
    Vector {
        label: "v5",
        claim: Claim::Decrypts(&A1_KEY, &B_CIPHER, &B_BLOCK),
    },
    Vector {
        label: "v6",
        claim: Claim::Encrypts(&C1_KEY, &C_BLOCK, &C1_CIPHER),
    },
    Vector {
        label: "v7",
        claim: Claim::Decrypts(&C1_KEY, &C1_CIPHER, &C_BLOCK),
    },
    Vector {
        label: "v8",
        claim: Claim::Encrypts(&C2_KEY, &C_BLOCK, &C2_CIPHER),
    },
    Vector {
        label: "v9",
        claim: Claim::Decrypts(&C2_KEY, &C2_CIPHER, &C_BLOCK),
    },
    Vector {
        label: "v10",
        claim: Claim::Encrypts(&C3_KEY, &C_BLOCK, &C3_CIPHER),
    },
    Vector {
        label: "v11",
        claim: Claim::Decrypts(&C3_KEY, &C3_CIPHER, &C_BLOCK),
    },
    Vector {
        label: "v12",
        claim: Claim::Covers(&A1_KEY, &CTR_PLAIN, &CTR_128),
    },
    Vector {
        label: "v13",
        claim: Claim::Covers(&A1_KEY, &CTR_128, &CTR_PLAIN),
    },
    Vector {
        label: "v14",
        claim: Claim::Covers(&A2_KEY, &CTR_PLAIN, &CTR_192),
    },
    Vector {
        label: "v15",
        claim: Claim::Covers(&A2_KEY, &CTR_192, &CTR_PLAIN),
    },
    Vector {
        label: "v16",
        claim: Claim::Covers(&A3_KEY, &CTR_PLAIN, &CTR_256),
    },
    Vector {
        label: "v17",
        claim: Claim::Covers(&A3_KEY, &CTR_256, &CTR_PLAIN),
    },
];
