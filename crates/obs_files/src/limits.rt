// How much files may hold.
ghost use Rattle.std.specs.Prelude.{◌≡◌, ◌≤◌, None, IfSome};
ghost use Rattle.obs_case.specs.Tables.{most_rows};
ghost use Rattle.obs_text.specs.Limits.{most_file_bytes};
ghost use Rattle.obs_files.specs.Limits.{IsLimits, large_limits, limits_of, usual_limits};

use obs_case::{MOST_ROWS, USUAL_ROWS};
use obs_text::{MOST_FILE_BYTES, USUAL_FILE_BYTES};
use std::marker::Model;

/// The most rows of each table that files give, and the most bytes of a file and of a session's input. Each certificate
/// that is printed of a case of so many rows fits into a file of so many bytes.
#[derive(Clone, Copy)]
pub struct Limits {
    rows: u32,
    bytes: usize,
}

impl Model for Limits {
    ghost use Rattle.obs_files.specs.Limits.{Limits as GivenLimits, IsLimits, limits_of};

    ghost Value = { GivenLimits };

    ghost view = { λ l. limits_of l.rows l.bytes };

    ghost invariant = { λ l. IsLimits (limits_of l.rows l.bytes) };

    ghost inverse = { λ v. record { rows = v.rows; bytes = v.bytes } };
}

impl Limits {
    /// The limits that hold where none are given: 20,000 rows and 16,777,216 bytes.
    pub fn usual() -> Limits
        ensures usual { result ≡ usual_limits }
    {
        Limits {
            rows: USUAL_ROWS as u32,
            bytes: USUAL_FILE_BYTES,
        }
    }

    /// The largest limits.
    pub fn large() -> Limits
        ensures large { result ≡ large_limits }
    {
        Limits {
            rows: MOST_ROWS as u32,
            bytes: MOST_FILE_BYTES,
        }
    }

    /// These limits, and none exactly where they are none.
    pub fn of(rows: u32, bytes: usize) -> Option<Limits>
        ensures given { IfSome result (λ limits. limits ≡ limits_of rows bytes) }
        ensures none { result ≡ None → IsLimits (limits_of rows bytes) → ⊥ }
    {
        let few = rows as usize <= MOST_ROWS && bytes <= MOST_FILE_BYTES;
        if few && 616 * rows as usize + 30 <= bytes {
            Some(Limits { rows, bytes })
        } else {
            None
        }
    }

    /// The most rows of a table.
    pub fn rows(self) -> u32
        ensures rows { result ≡ self.rows }
        ensures few { result ≤ most_rows }
        ensures limits { IsLimits self }
    {
        self.rows
    }

    /// The most bytes of a file.
    pub fn bytes(self) -> usize
        ensures bytes { result ≡ self.bytes }
        ensures few { result ≤ most_file_bytes }
        ensures limits { IsLimits self }
    {
        self.bytes
    }
}
