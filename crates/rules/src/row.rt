// What the rows of the volume, token and relay tables have in common: a number names each, and number 0 marks a free one.
ghost use Rattle.std.specs.Prelude.{◌≡◌, Bool};
ghost use Rattle.rules.specs.Tables.{is_volume, is_token, is_relay, free_volume, free_token, free_relay};

use super::{Relay, RelayNo, Token, TokenNo, Volume, VolumeNo};

pub trait Row {
    // The numbers of this kind of row. A number of another kind cannot be asked for.
    type No: Copy;

    ghost is_row: { Self.No → Self → Bool };

    ghost is_free_row: { Self → Bool };

    // Whether the row's number is n, and n is a number.
    fn has_number(&self, n: Self::No) -> bool
        ensures { result ≡ is_row n self.now };

    fn is_free(&self) -> bool
        ensures { result ≡ is_free_row self.now };
}

impl Row for Volume {
    type No = VolumeNo;

    ghost is_row = { is_volume };

    ghost is_free_row = { free_volume };

    fn has_number(&self, n: VolumeNo) -> bool {
        0 < n.0 && self.no.0 == n.0
    }

    fn is_free(&self) -> bool {
        self.no.0 == 0
    }
}

impl Row for Token {
    type No = TokenNo;

    ghost is_row = { is_token };

    ghost is_free_row = { free_token };

    fn has_number(&self, n: TokenNo) -> bool {
        0 < n.0 && self.no.0 == n.0
    }

    fn is_free(&self) -> bool {
        self.no.0 == 0
    }
}

impl Row for Relay {
    type No = RelayNo;

    ghost is_row = { is_relay };

    ghost is_free_row = { free_relay };

    fn has_number(&self, n: RelayNo) -> bool {
        0 < n.0 && self.no.0 == n.0
    }

    fn is_free(&self) -> bool {
        self.no.0 == 0
    }
}
