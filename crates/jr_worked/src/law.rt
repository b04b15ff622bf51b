// What the worked programs refer to: in each, every row refers to what lookup gives for it.
ghost use Rattle.std.specs.Prelude.{Some, pos};
ghost use Rattle.jr_base.specs.declared.constant.Const.{Const};
ghost use Rattle.jr_base.specs.declared.constant.Const.TheVariants as c;
ghost use Rattle.jr_defs.specs.declared.referent.Element.TheVariants as element;
ghost use Rattle.jr_defs.specs.declared.referent.RowType.{RowType};
ghost use Rattle.jr_defs.specs.Access.{IsAccessible};
ghost use Rattle.jr_defs.specs.Constants.{Constant, HasConstantForm};
ghost use Rattle.jr_defs.specs.Declarations.{IsOccurrence, IsPart};
ghost use Rattle.jr_defs.specs.Imports.{SingleImport};
ghost use Rattle.jr_defs.specs.Instances.{InStaticContext};
ghost use Rattle.jr_defs.specs.Modifiers.{IsPublic, IsStatic};
ghost use Rattle.jr_defs.specs.Types.{plain, class_type};
ghost use Rattle.jr_defs.specs.Typing.{TypeOf};
ghost use Rattle.jr_worked.specs.Tables.{rows_of, table_of, IsLookedUp};
ghost use Rattle.jr_worked.specs.Locals as locals;
ghost use Rattle.jr_worked.specs.Fields as fields;
ghost use Rattle.jr_worked.specs.Imports as imports;
ghost use Rattle.jr_worked.specs.Calls as calls;
ghost use Rattle.jr_worked.specs.Creations as creations;
ghost use Rattle.jr_worked.specs.Constants as constants;

/// Locals, parameters and labels (JLS 6.3, 6.3.1, 14.4.2, 14.7, 14.14.1).
pub fn worked_locals()
    ensures a_parameter_hides_a_field { IsLookedUp locals.a_parameter_hides_a_field }
    ensures a_field_is_in_scope_in_a_method { IsLookedUp locals.a_field_is_in_scope_in_a_method }
    ensures a_local_is_in_scope_in_its_own_initializer { IsLookedUp locals.a_local_is_in_scope_in_its_own_initializer }
    ensures a_field_before_a_later_local { IsLookedUp locals.a_field_before_a_later_local }
    ensures a_local_in_the_next_initializer { IsLookedUp locals.a_local_in_the_next_initializer }
    ensures a_local_of_a_for_header { IsLookedUp locals.a_local_of_a_for_header }
    ensures a_field_behind_a_for { IsLookedUp locals.a_field_behind_a_for }
    ensures a_local_of_an_earlier_switch_group { IsLookedUp locals.a_local_of_an_earlier_switch_group }
    ensures a_parameter_of_a_catch { IsLookedUp locals.a_parameter_of_a_catch }
    ensures labels_do_not_shadow { IsLookedUp locals.labels_do_not_shadow }
    ensures two_parameters_of_one_name { IsLookedUp locals.two_parameters_of_one_name }
{}

/// Fields: nested types, inheritance, receivers, obscured names (JLS 6.3.1, 6.4.2, 8.3, 15.11).
pub fn worked_fields()
    ensures a_field_of_the_inner_class { IsLookedUp fields.a_field_of_the_inner_class }
    ensures a_field_of_the_outer_class { IsLookedUp fields.a_field_of_the_outer_class }
    ensures an_inherited_field_shadows_an_enclosing_one { IsLookedUp fields.an_inherited_field_shadows_an_enclosing_one }
    ensures a_private_field_is_not_inherited { IsLookedUp fields.a_private_field_is_not_inherited }
    ensures private_reaches_the_top_level_type { IsLookedUp fields.private_reaches_the_top_level_type }
    ensures private_reaches_the_top_level_type_a_private_field_is_accessible { IsAccessible (rows_of fields.private_reaches_the_top_level_type) (table_of fields.private_reaches_the_top_level_type) 16 28 (Some (class_type 10)) }
    ensures two_inherited_fields { IsLookedUp fields.two_inherited_fields }
    ensures one_field_by_two_ways { IsLookedUp fields.one_field_by_two_ways }
    ensures a_field_through_a_cast { IsLookedUp fields.a_field_through_a_cast }
    ensures a_field_through_super { IsLookedUp fields.a_field_through_super }
    ensures no_this_in_static_code { IsLookedUp fields.no_this_in_static_code }
    ensures an_instance_field_in_static_code { IsLookedUp fields.an_instance_field_in_static_code }
    ensures an_instance_field_in_static_code_the_code_is_static { InStaticContext (rows_of fields.an_instance_field_in_static_code) 21 }
    ensures an_instance_field_in_static_code_the_field_is_not_static { IsStatic (rows_of fields.an_instance_field_in_static_code) 16 → ⊥ }
    ensures a_field_of_a_named_type { IsLookedUp fields.a_field_of_a_named_type }
    ensures a_field_of_a_named_type_the_type_before_the_dot_is_a_part { IsPart (rows_of fields.a_field_of_a_named_type) (table_of fields.a_field_of_a_named_type) 26 }
    ensures a_parameter_obscures_a_type { IsLookedUp fields.a_parameter_obscures_a_type }
    ensures the_length_of_an_array { IsLookedUp fields.the_length_of_an_array }
    ensures a_member_extends_its_class { IsLookedUp fields.a_member_extends_its_class }
{}

/// Packages, imports and access (JLS 6.5, 6.6, 7.5, 8.2).
pub fn worked_imports()
    ensures a_field_of_a_type_of_a_package { IsLookedUp imports.a_field_of_a_type_of_a_package }
    ensures a_field_of_a_type_of_a_package_the_package_is_a_part { IsPart (rows_of imports.a_field_of_a_type_of_a_package) (table_of imports.a_field_of_a_type_of_a_package) 22 }
    ensures a_field_of_a_type_of_a_package_the_type_is_a_part { IsPart (rows_of imports.a_field_of_a_type_of_a_package) (table_of imports.a_field_of_a_type_of_a_package) 21 }
    ensures a_field_obscures_a_package { IsLookedUp imports.a_field_obscures_a_package }
    ensures packages_need_no_unit { IsLookedUp imports.packages_need_no_unit }
    ensures an_import_by_name_shadows_the_package { IsLookedUp imports.an_import_by_name_shadows_the_package }
    ensures the_package_shadows_an_import_on_demand { IsLookedUp imports.the_package_shadows_an_import_on_demand }
    ensures an_import_on_demand { IsLookedUp imports.an_import_on_demand }
    ensures two_imports_on_demand { IsLookedUp imports.two_imports_on_demand }
    ensures an_import_on_demand_brings_what_is_accessible { IsLookedUp imports.an_import_on_demand_brings_what_is_accessible }
    ensures no_name_for_types_of_the_unnamed_package { IsLookedUp imports.no_name_for_types_of_the_unnamed_package }
    ensures a_static_import { IsLookedUp imports.a_static_import }
    ensures a_static_import_the_import_itself_is_no_occurrence { IsOccurrence (rows_of imports.a_static_import) 26 → ⊥ }
    ensures a_member_method_shadows_a_static_import { IsLookedUp imports.a_member_method_shadows_a_static_import }
    ensures a_member_does_not_pass_through_another_package { IsLookedUp imports.a_member_does_not_pass_through_another_package }
    ensures a_protected_field_is_reached_through_the_subclass { IsLookedUp imports.a_protected_field_is_reached_through_the_subclass }
    ensures a_protected_field_is_reached_through_the_subclass_through_the_subclass { IsAccessible (rows_of imports.a_protected_field_is_reached_through_the_subclass) (table_of imports.a_protected_field_is_reached_through_the_subclass) 18 41 (Some (class_type 25)) }
    ensures a_protected_field_is_reached_through_the_subclass_not_through_the_superclass { IsAccessible (rows_of imports.a_protected_field_is_reached_through_the_subclass) (table_of imports.a_protected_field_is_reached_through_the_subclass) 18 43 (Some (class_type 12)) → ⊥ }
    ensures an_import_of_the_own_type { IsLookedUp imports.an_import_of_the_own_type }
    ensures an_import_of_the_own_type_the_import_is_ignored { SingleImport (rows_of imports.an_import_of_the_own_type) (table_of imports.an_import_of_the_own_type) 9 15 → ⊥ }
    ensures two_types_of_one_package { IsLookedUp imports.two_types_of_one_package }
    ensures an_import_on_demand_brings_no_inherited_type { IsLookedUp imports.an_import_on_demand_brings_no_inherited_type }
{}

/// Calls of methods (JLS 15.12, 8.4.8).
pub fn worked_calls()
    ensures the_most_specific_method { IsLookedUp calls.the_most_specific_method }
    ensures no_most_specific_method { IsLookedUp calls.no_most_specific_method }
    ensures arguments_are_widened { IsLookedUp calls.arguments_are_widened }
    ensures the_search_stops_at_the_inner_class { IsLookedUp calls.the_search_stops_at_the_inner_class }
    ensures the_first_of_abstract_methods { IsLookedUp calls.the_first_of_abstract_methods }
    ensures the_method_that_is_not_abstract { IsLookedUp calls.the_method_that_is_not_abstract }
    ensures an_interface_has_the_methods_of_object { IsLookedUp calls.an_interface_has_the_methods_of_object }
    ensures calls_on_named_types { IsLookedUp calls.calls_on_named_types }
    ensures calls_on_named_types_the_simple_name_is_a_part { IsPart (rows_of calls.calls_on_named_types) (table_of calls.calls_on_named_types) 31 }
    ensures calls_on_named_types_the_qualified_name_is_a_part { IsPart (rows_of calls.calls_on_named_types) (table_of calls.calls_on_named_types) 33 }
    ensures calls_on_named_types_the_package_before_the_type_is_a_part { IsPart (rows_of calls.calls_on_named_types) (table_of calls.calls_on_named_types) 34 }
    ensures an_interface_declares_a_method_of_object { IsLookedUp calls.an_interface_declares_a_method_of_object }
    ensures two_abstract_methods_of_one_type { IsLookedUp calls.two_abstract_methods_of_one_type }
{}

/// Creations and constructors (JLS 15.9, 8.8).
pub fn worked_creations()
    ensures an_inherited_inner_class { IsLookedUp creations.an_inherited_inner_class }
    ensures an_inner_class_of_no_enclosing_one { IsLookedUp creations.an_inner_class_of_no_enclosing_one }
    ensures a_default_constructor { IsLookedUp creations.a_default_constructor }
    ensures no_constructor_for_the_implicit_call { IsLookedUp creations.no_constructor_for_the_implicit_call }
    ensures a_constructor_of_another_name { IsLookedUp creations.a_constructor_of_another_name }
    ensures a_class_of_an_interface { IsLookedUp creations.a_class_of_an_interface }
    ensures a_class_of_an_interface_the_constructor_is_public { IsPublic (rows_of creations.a_class_of_an_interface) 16 }
    ensures a_private_inner_class { IsLookedUp creations.a_private_inner_class }
    ensures a_protected_constructor { IsLookedUp creations.a_protected_constructor }
{}

/// Constants and types of expressions (JLS 15.25, 15.26, 15.28).
pub fn worked_constants()
    ensures a_constant_label { IsLookedUp constants.a_constant_label }
    ensures a_constant_label_the_label_is_constant { Constant (rows_of constants.a_constant_label) (table_of constants.a_constant_label) 28 (c.Int (pos 1)) }
    ensures a_label_through_this { IsLookedUp constants.a_label_through_this }
    ensures a_label_through_this_the_label_is_not_constant { (v : Const) → Constant (rows_of constants.a_label_through_this) (table_of constants.a_label_through_this) 28 v → ⊥ }
    ensures variables_that_need_each_other { IsLookedUp constants.variables_that_need_each_other }
    ensures variables_that_need_each_other_the_first_is_not_constant { (v : Const) → Constant (rows_of constants.variables_that_need_each_other) (table_of constants.variables_that_need_each_other) 18 v → ⊥ }
    ensures variables_that_need_each_other_the_second_is_not_constant { (v : Const) → Constant (rows_of constants.variables_that_need_each_other) (table_of constants.variables_that_need_each_other) 23 v → ⊥ }
    ensures a_choice_of_byte_and_char { IsLookedUp constants.a_choice_of_byte_and_char }
    ensures a_choice_of_byte_and_char_the_byte_is_constant { Constant (rows_of constants.a_choice_of_byte_and_char) (table_of constants.a_choice_of_byte_and_char) 30 (c.Byte (pos 10)) }
    ensures a_choice_of_byte_and_char_the_char_is_constant { Constant (rows_of constants.a_choice_of_byte_and_char) (table_of constants.a_choice_of_byte_and_char) 31 (c.Char 97) }
    ensures a_choice_of_byte_and_char_the_choice_is_constant { Constant (rows_of constants.a_choice_of_byte_and_char) (table_of constants.a_choice_of_byte_and_char) 28 (c.Int (pos 10)) }
    ensures a_choice_of_byte_and_char_the_choice_is_an_int { TypeOf (rows_of constants.a_choice_of_byte_and_char) (table_of constants.a_choice_of_byte_and_char) (HasConstantForm (rows_of constants.a_choice_of_byte_and_char) (table_of constants.a_choice_of_byte_and_char)) 28 (plain element.Int) }
    ensures an_object_is_no_string { IsLookedUp constants.an_object_is_no_string }
    ensures an_object_is_no_string_the_sum_has_no_type { (v : RowType) → TypeOf (rows_of constants.an_object_is_no_string) (table_of constants.an_object_is_no_string) (HasConstantForm (rows_of constants.an_object_is_no_string) (table_of constants.an_object_is_no_string)) 24 v → ⊥ }
{}
