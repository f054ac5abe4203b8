//! The weights of a rule.
ghost use Rattle.std.specs.Prelude.{◌≡◌, ◌*◌, ◌≤◌, ◌^◌, pos, IsFalse};
ghost use Rattle.fku_types.specs.Rules.{IsWeighted};
ghost use Rattle.round_sweeps.specs.Tiles.{FitWeights, IsRuleOf, most_area, tile_cost};

use fku_types::CostRule;

/// What squared spans and squared doubled areas are multiplied by.
#[derive(Clone, Copy, Drop)]
pub(crate) struct Weights {
    pub span: u64,
    pub area: u64,
}

/// The weights of a rule that counts areas alone.
#[derive(Clone, Copy, Drop)]
pub(crate) struct AreaAlone;

/// What weighs squared spans and squared doubled areas.
pub(crate) trait Weighing: Copy + Drop {
    ghost use Rattle.round_sweeps.specs.declared.weights.Weights.{Weights};

    // the weights
    ghost weights: { Self → Weights };

    /// Whether spans are counted.
    fn has_spans(&self) -> bool
        ensures { IsFalse result → (weights self.now).span ≡ 0 };

    /// The weighted cost of a step, up to the most.
    fn cost(&self, span: u64, area: u64) -> i64
        requires weights { FitWeights (weights self.now) }
        requires span { span ≤ 12 * 10 ^ 12 }
        requires area { area ≤ most_area }
        ensures value { result ≡ pos (tile_cost (weights self.now) span area) };
}

impl Weights {
    /// The weights of a rule.
    pub fn of(rule: CostRule) -> Weights
        requires { IsWeighted rule }
        ensures rule { IsRuleOf rule result }
        ensures fit { FitWeights result }
    {
        match rule {
            CostRule::Span => Weights { span: 1, area: 0 },
            CostRule::Area => Weights { span: 0, area: 1 },
            CostRule::Mix { span, area } => Weights {
                span: u64::from(span),
                area: u64::from(area),
            },
        }
    }
}

// The most that sweeps count for a step.
const MOST_COST: u64 = 281_474_976_710_656;

impl Weighing for Weights {
    ghost weights = { λ s. s };

    #[inline(always)]
    fn has_spans(&self) -> bool {
        true
    }

    #[inline(always)]
    fn cost(&self, span: u64, area: u64) -> i64 {
        let cost = self.span * span + self.area * area;
        let counted = if cost > MOST_COST { MOST_COST } else { cost };
        counted as i64
    }
}

impl Weighing for AreaAlone {
    ghost weights = { λ s. record { span = 0; area = 1 } };

    #[inline(always)]
    fn has_spans(&self) -> bool {
        false
    }

    #[inline(always)]
    fn cost(&self, _span: u64, area: u64) -> i64 {
        area as i64
    }
}
