//! What stands above labels, dominance sets, joins and logs, tried on small instances.

mod all_labels;
mod best_pairs;
mod both_in_one_bucket;
mod instances;
mod made_by_hand;
mod plain_bucket;
mod plain_gains;
mod plain_labels;
mod plain_paths;
mod steps_without_effect;
mod stereo_pairs;
mod whole_plans;
mod worked_values;
