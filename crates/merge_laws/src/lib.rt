//! From what each process can say of itself to the merge of all.
#![tactic(auto)]

mod laws;
mod worked;

pub use laws::{
    account_goes_on, account_grows, accounts_merge, own_states_are_the_historys, touch_grows,
    touched_pages_are_followed, views_account, views_touch,
};
