ghost use Rattle.std.specs.Prelude.{◌≡◌};
ghost use Rattle.snp_model.specs.Verdicts.{lacks};

use snp_model::Op;

// Whether permissions lack what an operation needs.
pub fn lacks(permissions: u8, op: &Op) -> bool
    ensures { result ≡ lacks permissions op.now }
{
    op.reads() && permissions % 2 == 0 || op.writes() && permissions / 2 % 2 == 0
}
