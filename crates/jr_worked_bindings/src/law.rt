// The tables of the worked programs are bindings, and the programs without one have a cycle of headers.
ghost use Rattle.std.specs.Prelude.{◌≡◌, Some};
ghost use Rattle.jr_defs.specs.Referents.{Table};
ghost use Rattle.jr_defs.specs.Binding.{IsBinding, IsFirstOnCycle};
ghost use Rattle.jr_headers.specs.Growing.{cycle_of};
ghost use Rattle.jr_worked.specs.Tables.{rows_of, table_of};
ghost use Rattle.jr_worked.specs.Locals as locals;
ghost use Rattle.jr_worked.specs.Fields as fields;
ghost use Rattle.jr_worked.specs.Imports as imports;
ghost use Rattle.jr_worked.specs.Calls as calls;
ghost use Rattle.jr_worked.specs.Creations as creations;
ghost use Rattle.jr_worked.specs.Constants as constants;
ghost use Rattle.jr_worked_bindings.specs.Cycles as cycles;

/// Locals, parameters and labels (JLS 6.3, 6.3.1, 14.4.2, 14.7, 14.14.1).
pub fn bindings_of_locals()
    ensures a_parameter_hides_a_field { IsBinding (rows_of locals.a_parameter_hides_a_field) (table_of locals.a_parameter_hides_a_field) }
    ensures a_field_is_in_scope_in_a_method { IsBinding (rows_of locals.a_field_is_in_scope_in_a_method) (table_of locals.a_field_is_in_scope_in_a_method) }
    ensures a_local_is_in_scope_in_its_own_initializer { IsBinding (rows_of locals.a_local_is_in_scope_in_its_own_initializer) (table_of locals.a_local_is_in_scope_in_its_own_initializer) }
    ensures a_field_before_a_later_local { IsBinding (rows_of locals.a_field_before_a_later_local) (table_of locals.a_field_before_a_later_local) }
    ensures a_local_in_the_next_initializer { IsBinding (rows_of locals.a_local_in_the_next_initializer) (table_of locals.a_local_in_the_next_initializer) }
    ensures a_local_of_a_for_header { IsBinding (rows_of locals.a_local_of_a_for_header) (table_of locals.a_local_of_a_for_header) }
    ensures a_field_behind_a_for { IsBinding (rows_of locals.a_field_behind_a_for) (table_of locals.a_field_behind_a_for) }
    ensures a_local_of_an_earlier_switch_group { IsBinding (rows_of locals.a_local_of_an_earlier_switch_group) (table_of locals.a_local_of_an_earlier_switch_group) }
    ensures a_parameter_of_a_catch { IsBinding (rows_of locals.a_parameter_of_a_catch) (table_of locals.a_parameter_of_a_catch) }
    ensures labels_do_not_shadow { IsBinding (rows_of locals.labels_do_not_shadow) (table_of locals.labels_do_not_shadow) }
    ensures two_parameters_of_one_name { IsBinding (rows_of locals.two_parameters_of_one_name) (table_of locals.two_parameters_of_one_name) }
{}

/// Fields: nested types, inheritance, receivers, obscured names (JLS 6.3.1, 6.4.2, 8.3, 15.11).
pub fn bindings_of_fields()
    ensures a_field_of_the_inner_class { IsBinding (rows_of fields.a_field_of_the_inner_class) (table_of fields.a_field_of_the_inner_class) }
    ensures a_field_of_the_outer_class { IsBinding (rows_of fields.a_field_of_the_outer_class) (table_of fields.a_field_of_the_outer_class) }
    ensures an_inherited_field_shadows_an_enclosing_one { IsBinding (rows_of fields.an_inherited_field_shadows_an_enclosing_one) (table_of fields.an_inherited_field_shadows_an_enclosing_one) }
    ensures a_private_field_is_not_inherited { IsBinding (rows_of fields.a_private_field_is_not_inherited) (table_of fields.a_private_field_is_not_inherited) }
    ensures private_reaches_the_top_level_type { IsBinding (rows_of fields.private_reaches_the_top_level_type) (table_of fields.private_reaches_the_top_level_type) }
    ensures two_inherited_fields { IsBinding (rows_of fields.two_inherited_fields) (table_of fields.two_inherited_fields) }
    ensures one_field_by_two_ways { IsBinding (rows_of fields.one_field_by_two_ways) (table_of fields.one_field_by_two_ways) }
    ensures a_field_through_a_cast { IsBinding (rows_of fields.a_field_through_a_cast) (table_of fields.a_field_through_a_cast) }
    ensures a_field_through_super { IsBinding (rows_of fields.a_field_through_super) (table_of fields.a_field_through_super) }
    ensures no_this_in_static_code { IsBinding (rows_of fields.no_this_in_static_code) (table_of fields.no_this_in_static_code) }
    ensures an_instance_field_in_static_code { IsBinding (rows_of fields.an_instance_field_in_static_code) (table_of fields.an_instance_field_in_static_code) }
    ensures a_field_of_a_named_type { IsBinding (rows_of fields.a_field_of_a_named_type) (table_of fields.a_field_of_a_named_type) }
    ensures a_parameter_obscures_a_type { IsBinding (rows_of fields.a_parameter_obscures_a_type) (table_of fields.a_parameter_obscures_a_type) }
    ensures the_length_of_an_array { IsBinding (rows_of fields.the_length_of_an_array) (table_of fields.the_length_of_an_array) }
    ensures a_member_extends_its_class { IsBinding (rows_of fields.a_member_extends_its_class) (table_of fields.a_member_extends_its_class) }
{}

/// Packages, imports and access (JLS 6.5, 6.6, 7.5, 8.2).
pub fn bindings_of_imports()
    ensures a_field_of_a_type_of_a_package { IsBinding (rows_of imports.a_field_of_a_type_of_a_package) (table_of imports.a_field_of_a_type_of_a_package) }
    ensures a_field_obscures_a_package { IsBinding (rows_of imports.a_field_obscures_a_package) (table_of imports.a_field_obscures_a_package) }
    ensures packages_need_no_unit { IsBinding (rows_of imports.packages_need_no_unit) (table_of imports.packages_need_no_unit) }
    ensures an_import_by_name_shadows_the_package { IsBinding (rows_of imports.an_import_by_name_shadows_the_package) (table_of imports.an_import_by_name_shadows_the_package) }
    ensures the_package_shadows_an_import_on_demand { IsBinding (rows_of imports.the_package_shadows_an_import_on_demand) (table_of imports.the_package_shadows_an_import_on_demand) }
    ensures an_import_on_demand { IsBinding (rows_of imports.an_import_on_demand) (table_of imports.an_import_on_demand) }
    ensures two_imports_on_demand { IsBinding (rows_of imports.two_imports_on_demand) (table_of imports.two_imports_on_demand) }
    ensures an_import_on_demand_brings_what_is_accessible { IsBinding (rows_of imports.an_import_on_demand_brings_what_is_accessible) (table_of imports.an_import_on_demand_brings_what_is_accessible) }
    ensures no_name_for_types_of_the_unnamed_package { IsBinding (rows_of imports.no_name_for_types_of_the_unnamed_package) (table_of imports.no_name_for_types_of_the_unnamed_package) }
    ensures a_static_import { IsBinding (rows_of imports.a_static_import) (table_of imports.a_static_import) }
    ensures a_member_method_shadows_a_static_import { IsBinding (rows_of imports.a_member_method_shadows_a_static_import) (table_of imports.a_member_method_shadows_a_static_import) }
    ensures a_member_does_not_pass_through_another_package { IsBinding (rows_of imports.a_member_does_not_pass_through_another_package) (table_of imports.a_member_does_not_pass_through_another_package) }
    ensures a_protected_field_is_reached_through_the_subclass { IsBinding (rows_of imports.a_protected_field_is_reached_through_the_subclass) (table_of imports.a_protected_field_is_reached_through_the_subclass) }
    ensures an_import_of_the_own_type { IsBinding (rows_of imports.an_import_of_the_own_type) (table_of imports.an_import_of_the_own_type) }
    ensures two_types_of_one_package { IsBinding (rows_of imports.two_types_of_one_package) (table_of imports.two_types_of_one_package) }
    ensures an_import_on_demand_brings_no_inherited_type { IsBinding (rows_of imports.an_import_on_demand_brings_no_inherited_type) (table_of imports.an_import_on_demand_brings_no_inherited_type) }
{}

/// Calls of methods (JLS 15.12, 8.4.8).
pub fn bindings_of_calls()
    ensures the_most_specific_method { IsBinding (rows_of calls.the_most_specific_method) (table_of calls.the_most_specific_method) }
    ensures no_most_specific_method { IsBinding (rows_of calls.no_most_specific_method) (table_of calls.no_most_specific_method) }
    ensures arguments_are_widened { IsBinding (rows_of calls.arguments_are_widened) (table_of calls.arguments_are_widened) }
    ensures the_search_stops_at_the_inner_class { IsBinding (rows_of calls.the_search_stops_at_the_inner_class) (table_of calls.the_search_stops_at_the_inner_class) }
    ensures the_first_of_abstract_methods { IsBinding (rows_of calls.the_first_of_abstract_methods) (table_of calls.the_first_of_abstract_methods) }
    ensures the_method_that_is_not_abstract { IsBinding (rows_of calls.the_method_that_is_not_abstract) (table_of calls.the_method_that_is_not_abstract) }
    ensures an_interface_has_the_methods_of_object { IsBinding (rows_of calls.an_interface_has_the_methods_of_object) (table_of calls.an_interface_has_the_methods_of_object) }
    ensures calls_on_named_types { IsBinding (rows_of calls.calls_on_named_types) (table_of calls.calls_on_named_types) }
    ensures an_interface_declares_a_method_of_object { IsBinding (rows_of calls.an_interface_declares_a_method_of_object) (table_of calls.an_interface_declares_a_method_of_object) }
    ensures two_abstract_methods_of_one_type { IsBinding (rows_of calls.two_abstract_methods_of_one_type) (table_of calls.two_abstract_methods_of_one_type) }
{}

/// Creations and constructors (JLS 15.9, 8.8).
pub fn bindings_of_creations()
    ensures an_inherited_inner_class { IsBinding (rows_of creations.an_inherited_inner_class) (table_of creations.an_inherited_inner_class) }
    ensures an_inner_class_of_no_enclosing_one { IsBinding (rows_of creations.an_inner_class_of_no_enclosing_one) (table_of creations.an_inner_class_of_no_enclosing_one) }
    ensures a_default_constructor { IsBinding (rows_of creations.a_default_constructor) (table_of creations.a_default_constructor) }
    ensures no_constructor_for_the_implicit_call { IsBinding (rows_of creations.no_constructor_for_the_implicit_call) (table_of creations.no_constructor_for_the_implicit_call) }
    ensures a_constructor_of_another_name { IsBinding (rows_of creations.a_constructor_of_another_name) (table_of creations.a_constructor_of_another_name) }
    ensures a_class_of_an_interface { IsBinding (rows_of creations.a_class_of_an_interface) (table_of creations.a_class_of_an_interface) }
    ensures a_private_inner_class { IsBinding (rows_of creations.a_private_inner_class) (table_of creations.a_private_inner_class) }
    ensures a_protected_constructor { IsBinding (rows_of creations.a_protected_constructor) (table_of creations.a_protected_constructor) }
{}

/// Constants and types of expressions (JLS 15.25, 15.26, 15.28).
pub fn bindings_of_constants()
    ensures a_constant_label { IsBinding (rows_of constants.a_constant_label) (table_of constants.a_constant_label) }
    ensures a_label_through_this { IsBinding (rows_of constants.a_label_through_this) (table_of constants.a_label_through_this) }
    ensures variables_that_need_each_other { IsBinding (rows_of constants.variables_that_need_each_other) (table_of constants.variables_that_need_each_other) }
    ensures a_choice_of_byte_and_char { IsBinding (rows_of constants.a_choice_of_byte_and_char) (table_of constants.a_choice_of_byte_and_char) }
    ensures an_object_is_no_string { IsBinding (rows_of constants.an_object_is_no_string) (table_of constants.an_object_is_no_string) }
{}

/// Programs whose headers have a cycle: the first type on it, and that there is no binding (JLS 8.1.4).
pub fn cyclic_programs()
    ensures two_classes_extend_each_other { cycle_of cycles.two_classes_extend_each_other ≡ Some 10 }
    ensures two_classes_extend_each_other_first { IsFirstOnCycle cycles.two_classes_extend_each_other 10 }
    ensures two_classes_extend_each_other_has_no_binding { (t : Table) → IsBinding cycles.two_classes_extend_each_other t → ⊥ }
    ensures a_cycle_through_an_import { cycle_of cycles.a_cycle_through_an_import ≡ Some 12 }
    ensures a_cycle_through_an_import_first { IsFirstOnCycle cycles.a_cycle_through_an_import 12 }
    ensures a_cycle_through_an_import_has_no_binding { (t : Table) → IsBinding cycles.a_cycle_through_an_import t → ⊥ }
    ensures a_class_extends_its_member { cycle_of cycles.a_class_extends_its_member ≡ Some 10 }
    ensures a_class_extends_its_member_first { IsFirstOnCycle cycles.a_class_extends_its_member 10 }
    ensures a_class_extends_its_member_has_no_binding { (t : Table) → IsBinding cycles.a_class_extends_its_member t → ⊥ }
    ensures a_cycle_through_a_qualifier { cycle_of cycles.a_cycle_through_a_qualifier ≡ Some 10 }
    ensures a_cycle_through_a_qualifier_first { IsFirstOnCycle cycles.a_cycle_through_a_qualifier 10 }
    ensures a_cycle_through_a_qualifier_has_no_binding { (t : Table) → IsBinding cycles.a_cycle_through_a_qualifier t → ⊥ }
    ensures a_cycle_through_a_later_name { cycle_of cycles.a_cycle_through_a_later_name ≡ Some 10 }
    ensures a_cycle_through_a_later_name_first { IsFirstOnCycle cycles.a_cycle_through_a_later_name 10 }
    ensures a_cycle_through_a_later_name_has_no_binding { (t : Table) → IsBinding cycles.a_cycle_through_a_later_name t → ⊥ }
{}
