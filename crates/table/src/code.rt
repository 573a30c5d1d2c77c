// Why a read or a write of an entry is refused.
ghost use Rattle.std.specs.Prelude.{◌≡◌};
ghost use Rattle.table.specs.Codes.{code_of};

#[derive(Clone, Copy, PartialEq, Eq)]
pub enum AbortCode {
    IndexAbsent,
    SubindexAbsent,
    WriteOnly,
    ReadOnly,
    TooLong,
    TooShort,
    LockShut,
    NotANumber,
    TooHigh,
    TooLow,
    LeftCrossed,
}

// Its abort code.
impl From<AbortCode> for u32 {
    ghost from_gives = { λ abort code. code ≡ code_of abort };

    fn from(abort: AbortCode) -> u32 {
        match abort {
            AbortCode::IndexAbsent => 0x06020000,
            AbortCode::SubindexAbsent => 0x06090011,
            AbortCode::WriteOnly => 0x06010001,
            AbortCode::ReadOnly => 0x06010002,
            AbortCode::TooLong => 0x06070012,
            AbortCode::TooShort => 0x06070013,
            AbortCode::LockShut => 0x08000022,
            AbortCode::NotANumber => 0x06090030,
            AbortCode::TooHigh => 0x06090031,
            AbortCode::TooLow => 0x06090032,
            AbortCode::LeftCrossed => 0x06090036,
        }
    }
}
