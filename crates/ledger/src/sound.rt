// Whether a ledger's state is sound [S1 to S11].
ghost use Rattle.std.specs.Prelude.{◌≡◌};
ghost use Rattle.ledger.specs.Sound.{sound};

use crate::Ledger;
use held::HELD;

impl Ledger {
    pub(crate) fn is_sound(self) -> bool
        ensures { result ≡ sound self }
    {
        let in_range = ledgers::is_ledger_of(self.group, self.own)
            & ((self.clock.0 <= payment::LAST_TIME) & (usize::from(self.count) <= HELD));
        let right = checked::held_right(
            self.payments,
            self.count,
            self.group,
            self.own,
            self.clock,
        );
        in_range & (right & posting::none_free(self.payments, self.own))
    }
}
