use rules::by_type::ByType;

// A share for each type of item, from 0 to 1,073,741,824, which stands for all. Survival refuses a
// higher one.
pub type Shares = ByType<u32>;
