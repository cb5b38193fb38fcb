// forecast V STEP COUNT SAVES: the forecast of COUNT items, of which the one behind every SAVES others stands for a commit;
// the others are V again and again if STEP is 0, else V, V + 1 and so on.
ghost use Rattle.std.specs.Prelude.{◌≡◌, length, IfSome};

use once_forecast::COMMIT;

// The most items.
pub const MOST: usize = 4352;

#[derive(Clone, Copy)]
pub struct Items {
    pub first: u32,
    pub step: u32,
    pub count: u32,
    pub saves: u32,
}

impl Items {
    // Item i.
    fn item(self, i: u32) -> u32 {
        let turn = u64::from(self.saves) + 1;
        if (u64::from(i) + 1) % turn == 0 {
            return COMMIT + i % COMMIT;
        }
        if self.step == 0 {
            return self.first;
        }
        let commits = (u64::from(i) / turn) as u32;
        self.first.wrapping_add(i - commits)
    }

    // The items, from the first on, in the first of these places; none where there are too few places.
    pub fn list(self, places: &mut [u32]) -> Option<&[u32]>
        ensures { IfSome result (λ items. length items.now ≡ self.count) }
    {
        let items = places.get_mut(..self.count as usize)?;
        for (item, i) in items.iter_mut().zip(0..self.count) {
            *item = self.item(i);
        }
        Some(items)
    }
}
